ghost use Rattle.std.specs.Prelude.{IfErr, IfOk};
ghost use Rattle.library_uses.specs.Uses.{DeclaresNone, IsProtocolOf};

use bspl_parser::{parse, reads_back};
use bspl_types::{Admitted, Refusal};
use protocol_expand::{admit, expand};
use std::alloc::Global;

/// The protocol of the name that the text declares, or why it declares none.
pub fn admitted_protocol(alloc: Global, text: &[u8], name: &[u8]) -> Result<Admitted, Refusal>
    ensures ok { IfOk result (IsProtocolOf text.now name.now) }
    ensures refused { IfErr result (DeclaresNone text.now name.now) }
{
    // law: what a text spells is well formed
    reads_back();
    let document = parse(alloc, text)?;
    let expansion = expand(alloc, &document, name)?;
    admit(expansion)
}
