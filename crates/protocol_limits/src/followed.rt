ghost use Rattle.std.specs.Prelude.{◌≡◌, ◌↔◌, ℕ, Some, slice_get, IfOk, IsTrue};
ghost use Rattle.protocol_limits.specs.Graph.{graph_of};
ghost use Rattle.protocol_limits.specs.Reported.{AreFollowed};
ghost use Rattle.protocol_limits.specs.inner.SortedDocument.{AreCounts};

use super::sorted_document::SortedDocument;
use bspl_types::{NoMemory, Seq};
use reference_graph::orders_have_the_reached;

/// For each protocol whether it is followed, which it is not if it is reached and counts nothing.
pub(crate) fn followed_of(document: &SortedDocument, counts: &[u64]) -> Result<Seq<bool>, NoMemory>
    ensures { (count : ℕ → ℕ) → AreCounts count document.now.order counts.now →
        IfOk result
        (AreFollowed (graph_of document.now.protocols) document.now.top count) }
{
    // law: an order has all nodes that are reached
    orders_have_the_reached();
    let mut followed = vec![in document.alloc; true; document.table.protocols.len()]?;
    for number in document.order {
        followed[*number as usize] = !is_nothing(counts, *number);
    }
    Seq::from_slice(document.alloc, &followed)
}

/// Whether the count of that number is 0.
fn is_nothing(counts: &[u64], number: u32) -> bool
    ensures { IsTrue result ↔ (slice_get counts.now number ≡ Some 0) }
{
    counts.get(number as usize) == Some(&0)
}
