ghost use Rattle.std.specs.Prelude.{◌≡◌, ℕ, count_by, is_some, IfOk};
ghost use Rattle.reference_graph.specs.PathCounts.{saturated};
ghost use Rattle.protocol_limits.specs.Counts.{depth};
ghost use Rattle.protocol_limits.specs.inner.SortedDocument.{AreCounts};

use super::sorted_document::SortedDocument;
use bspl_parser::{Declaration, Formal};
use bspl_types::NoMemory;
use reference_graph::depths;

/// How many references the longest path from the top has.
pub(crate) fn depth(document: &SortedDocument) -> Result<u64, NoMemory>
    ensures { IfOk result (λ n. n ≡ depth document.now.protocols document.now.top) }
{
    let depths = depths(document.alloc, document.graph, document.order)?;
    Ok(*depths.at(document.top as usize))
}

/// The count of the top protocol.
pub(crate) fn at_top(document: &SortedDocument, counts: &[u64]) -> u64
    ensures { (count : ℕ → ℕ) → AreCounts count document.now.order counts.now →
        result ≡ saturated (count document.now.top) }
{
    match counts.get(document.top as usize) {
        Some(count) => *count,
        None => 0,
    }
}

/// How many keys the protocol has.
pub(crate) fn key_count(protocol: &Declaration) -> usize
    ensures { result ≡ count_by (λ f. is_some f.key) protocol.now.public }
{
    keys_among(protocol.public.as_slice())
}

/// How many of the parameters are keys.
fn keys_among(public: &[Formal]) -> usize
    ensures { result ≡ count_by (λ f. is_some f.key) public.now }
{
    public.iter().filter(|formal| formal.key.is_some()).count()
}
