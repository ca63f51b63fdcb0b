ghost use Rattle.std.specs.Prelude.{◌≡◌, [], ◌∷◌, IfOk};

use bspl_parser::{parse, reads_back};
use bspl_types::{Admitted, Expanded, NoMemory, Refusal, Seq};
use protocol_expand::{admit, expand};
use std::alloc::Global;
use std::test::Fail;

/// The expansion of the protocol of that name in the text.
fn expansion(alloc: Global, text: &[u8], name: &[u8]) -> Result<Expanded, Refusal> {
    // law: the document of a text is well formed
    reads_back();
    let document = parse(alloc, text)?;
    expand(alloc, &document, name)
}

/// The protocol of that name in the text, which is admitted.
pub fn protocol(alloc: Global, text: &[u8], name: &[u8]) -> Result<Admitted, Fail> {
    let x = expansion(alloc, text, name)
        .ok()
        .ok_or("the text has no expansion")?;
    Ok(admit(x).ok().ok_or("the protocol is not admitted")?)
}

/// A list of the protocol alone: it is one value to drop, where the protocol has many.
pub fn alone(alloc: Global, protocol: Admitted) -> Result<Seq<Admitted>, NoMemory>
    ensures { IfOk result (λ list. list ≡ protocol ∷ []) }
{
    let mut list = Seq::new(alloc);
    list.push(protocol)?;
    Ok(list)
}
