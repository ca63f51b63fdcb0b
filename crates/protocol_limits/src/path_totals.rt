ghost use Rattle.std.specs.Prelude.{IfOk};
ghost use Rattle.protocol_limits.specs.inner.PathTotals.{ArePathTotals};

use super::counts::depth;
use super::sorted_document::SortedDocument;
use super::weights::{message_counts, private_counts};
use bspl_types::{NoMemory, Seq};

/// How many references the longest path has; and, for each protocol of the order, the messages and
/// the private parameters at the ends of its paths.
#[derive(Drop)]
pub(crate) struct PathTotals {
    pub depth: u64,
    pub messages: Seq<u64>,
    pub privates: Seq<u64>,
}

/// Counts along the paths of a document.
pub(crate) fn path_totals(document: &SortedDocument) -> Result<PathTotals, NoMemory>
    ensures { IfOk result (ArePathTotals document.now) }
{
    Ok(PathTotals {
        depth: depth(document)?,
        messages: message_counts(document)?,
        privates: private_counts(document)?,
    })
}
