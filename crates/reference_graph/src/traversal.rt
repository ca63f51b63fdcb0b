ghost use Rattle.std.specs.Prelude.{◌<◌, length, IfOk};
ghost use Rattle.reference_graph.specs.WalkResult.{IsWalkResult};

use super::graph::Graph;
use super::search::{Progress, Search};
use super::walk_result::WalkResult;
use list_base::NoMemory;
use std::alloc::Global;

/// Follows all references from the node, in order and depth first, up to the first cycle.
pub fn walk(alloc: Global, graph: &Graph, start: u32) -> Result<WalkResult, NoMemory>
    requires { start < length graph.now }
    ensures { IfOk result (IsWalkResult graph.now start) }
{
    let mut search = Search::new(alloc, graph, start)?;
    'steps: loop {
        match search.advance(graph)? {
            Progress::Continues => {}
            Progress::Ends => return Ok(WalkResult::Order(search.done)),
            Progress::FindsCycle(node) => return Ok(WalkResult::Cycle(node)),
        }
    }
}
