ghost use Rattle.std.specs.Prelude.{IfOk};
ghost use Rattle.protocol_expand.specs.Printed.{ExpandsBack, IsPrinted};

use super::declaration::declaration_of;
use super::laws::plain_protocols_stand_for_themselves;
use bspl_parser::{Document, print};
use bspl_types::{Bytes, Expanded, NoMemory, Seq};
use std::alloc::Global;

/// The text of an expansion, in the layout of documents: one protocol, its messages as items.
pub fn print_expanded(alloc: Global, x: &Expanded) -> Result<Bytes, NoMemory>
    ensures text { IfOk result (IsPrinted x.now) }
    ensures read_back { IfOk result (λ text. ExpandsBack text x.now) }
{
    // law: a plain protocol alone in a document expands to its own expansion
    plain_protocols_stand_for_themselves();
    let mut protocols = Seq::new(alloc);
    protocols.push(declaration_of(alloc, x)?)?;
    print(alloc, &Document { protocols })
}
