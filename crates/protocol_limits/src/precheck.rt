ghost use Rattle.std.specs.Prelude.{◌<◌, ◌^◌, length, IfOk};
ghost use Rattle.protocol_limits.specs.Survey.{IsSurvey, IsUnrolled};
ghost use Rattle.protocol_limits.specs.inner.PathTotals.{AreChecked};

use super::followed::followed_of;
use super::laws::unrolled_paths_are_short;
use super::limits::check_limits;
use super::outcome::{LimitError, Survey};
use super::path_totals::PathTotals;
use super::references::graph_of;
use super::sorted_document::SortedDocument;
use bspl_types::NoMemory;
use protocol_names::ProtocolTable;
use reference_graph::{WalkResult, orders_have_no_cycle, walk, weights_add_up};
use std::alloc::Global;

/// Whether the protocol of that number may be expanded: the first cycle of its references, the
/// first count over its limit, or what an expansion may go by.
pub fn survey(alloc: Global, table: &ProtocolTable, top: u32) -> Result<Survey, NoMemory>
    requires declared { top < length table.now.protocols.now }
    requires few { length table.now.protocols.now < 2 ^ 32 }
    ensures { IfOk result (IsSurvey table.now.protocols.now top) }
{
    let graph = graph_of(alloc, table)?;
    match walk(alloc, &graph, top)? {
        WalkResult::Cycle(node) => Ok(Survey::Cycle(node)),
        WalkResult::Order(order) => survey_of(&SortedDocument {
            alloc,
            table,
            graph: &graph,
            order: order.as_slice(),
            top,
        }),
    }
}

/// The survey of a sorted document.
fn survey_of(document: &SortedDocument) -> Result<Survey, NoMemory>
    ensures { IfOk result (IsSurvey document.now.protocols document.now.top) }
{
    no_cycle(document);
    let top = &document.table.protocols[document.top as usize];
    match check_limits(document, top) {
        Ok(totals) => within(document, &totals),
        Err(LimitError::TooMany { what, count }) => Ok(Survey::Over { what, count }),
        Err(LimitError::NoMemory) => Err(NoMemory),
    }
}

/// No path of references in a sorted document is a cycle.
fn no_cycle(document: &SortedDocument)
    ensures { IsUnrolled document.now.protocols document.now.top }
{
    // law: if there is an order, no path is a cycle
    orders_have_no_cycle();
    // a sorted document has an order
    let _ = &document.order;
}

/// The survey of a document whose counts are within their limits.
fn within(document: &SortedDocument, totals: &PathTotals) -> Result<Survey, NoMemory>
    requires checked { AreChecked document.now totals.now }
    ensures { IfOk result (IsSurvey document.now.protocols document.now.top) }
{
    no_cycle(document);
    // law: if no path is a cycle, no path has more references than the depth
    unrolled_paths_are_short();
    // law: the weight of a node is its own, and those of the nodes that it refers to
    weights_add_up();
    let messages = followed_of(document, totals.messages.as_slice())?;
    let privates = followed_of(document, totals.privates.as_slice())?;
    Ok(Survey::Within {
        depth: totals.depth as usize,
        messages,
        privates,
    })
}
