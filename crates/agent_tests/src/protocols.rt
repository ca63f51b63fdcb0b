ghost use Rattle.std.specs.Prelude.{◌≡◌, length, IfOk};

use bspl_parser::{parse, reads_back};
use bspl_types::{Expanded, Refusal, Seq};
use protocol_expand::expand;
use std::alloc::Global;
use std::test::Fail;

/// A question and its answer, under two keys.
pub(crate) const PAIR: &[u8] = b"P {
  roles A, B
  parameters out K key, out L key, out x, out y
  A -> B: m[out K, out L, out x]
  B -> A: n[in K, in L, in x, out y]
}";

/// The expansion of the protocol `P` of the text.
fn expansion(alloc: Global, text: &[u8]) -> Result<Expanded, Refusal> {
    // law: the document of a text is well formed
    reads_back();
    let document = parse(alloc, text)?;
    expand(alloc, &document, b"P")
}

/// A list of the expansion of the protocol `P` of the text alone: it is one value to drop, where
/// the expansion has many.
pub(crate) fn listed(alloc: Global, text: &[u8]) -> Result<Seq<Expanded>, Fail>
    ensures { IfOk result (λ list. length list ≡ 1) }
{
    let x = expansion(alloc, text)
        .ok()
        .ok_or("the text has no expansion")?;
    let mut list = Seq::new(alloc);
    list.push(x)?;
    Ok(list)
}
