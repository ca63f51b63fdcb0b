ghost use Rattle.std.specs.Prelude.{◌≡◌, ◌<◌, length, IfOk};
ghost use Rattle.reference_graph.specs.Order.{IsTopological};

use super::graphs::{Source, graph, lists_of};
use list_base::NoMemory;
use reference_graph::{Graph, WalkResult, depths, is_graph, walk, weights_below};
use std::alloc::Global;

/// Node 0 leads to 1 and 2, and both lead to 3.
const DIAMOND: Source = Source::Rows(&[&[1, 2], &[3], &[3], &[]]);

/// A graph, and the node where the first cycle from node 0 ends, if there is one.
struct Cycle {
    source: Source,
    end: Option<u32>,
}

const CYCLES: &[Cycle] = &[
    Cycle {
        source: Source::Rows(&[&[0]]),
        end: Some(0),
    },
    Cycle {
        source: Source::Rows(&[&[1], &[2], &[1]]),
        end: Some(1),
    },
    Cycle {
        source: Source::Rows(&[&[1, 2], &[3], &[2], &[3, 0]]),
        end: Some(3),
    },
    Cycle {
        source: Source::Rows(&[&[1, 2], &[], &[1, 0, 2]]),
        end: Some(0),
    },
    Cycle {
        source: Source::Rows(&[&[1], &[], &[2]]),
        end: None,
    },
    Cycle {
        source: Source::Chain(24_000, 1, &[23_998]),
        end: Some(23_998),
    },
];

/// A graph, and what is counted at its node 0.
struct Counts {
    source: Source,
    /// The weight of each node but the last, whose weight is 1.
    weight: u64,
    sum: u64,
    depth: u64,
}

const COUNTS: &[Counts] = &[
    Counts {
        source: DIAMOND,
        weight: 1,
        sum: 5,
        depth: 2,
    },
    Counts {
        source: DIAMOND,
        weight: 0,
        sum: 2,
        depth: 2,
    },
    Counts {
        source: Source::Chain(24_000, 1, &[]),
        weight: 1,
        sum: 24_000,
        depth: 23_999,
    },
    Counts {
        source: Source::Chain(9, 10, &[]),
        weight: 0,
        sum: 100_000_000,
        depth: 8,
    },
    Counts {
        source: Source::Chain(9, 300, &[]),
        weight: 0,
        sum: u64::MAX,
        depth: 8,
    },
];

/// An order of the diamond's nodes: each comes after those that it leads to.
const DIAMOND_ORDER: &[u32] = &[3, 1, 2, 0];

/// Rows that are no graph: there is no node 2.
const ASTRAY: &[&[u32]] = &[&[1], &[2]];

/// Whether the first cycle from node 0 ends there, or there is none if none is wanted.
fn has_cycle(alloc: Global, graph: &Graph, wanted: Option<u32>) -> bool
    requires { 0 < length graph.now }
{
    match walk(alloc, graph, 0) {
        Ok(WalkResult::Order(_)) => wanted.is_none(),
        Ok(WalkResult::Cycle(node)) => wanted == Some(node),
        Err(NoMemory) => false,
    }
}

/// Whether the row's graph has its first cycle where it should.
fn is_cyclic(alloc: Global, row: &Cycle) -> bool {
    match graph(alloc, row.source) {
        Ok(Some(graph)) => has_cycle(alloc, &graph, row.end),
        Ok(None) | Err(NoMemory) => false,
    }
}

#[test]
fn the_first_cycle_is_named(rt: HostRuntime) {
    for row in CYCLES {
        assert!(rt; is_cyclic(rt.alloc(), row));
    }
}

/// The weights: 1 for the last node, and this one for the others.
fn weights_of(alloc: Global, graph: &Graph, weight: u64) -> Result<Vec<u64>, NoMemory>
    requires { 0 < length graph.now }
    ensures { IfOk result (λ weights. length weights.items ≡ length graph.now) }
{
    let mut weights = vec![in alloc; weight; graph.len()]?;
    weights[graph.len() - 1] = 1;
    Ok(weights)
}

/// Whether the sum of the weights below node 0 is the row's.
fn has_sum(alloc: Global, graph: &Graph, order: &[u32], row: &Counts) -> Result<bool, NoMemory>
    requires nodes { 0 < length graph.now }
    requires order { IsTopological graph.now order.now }
{
    let weights = weights_of(alloc, graph, row.weight)?;
    let sums = weights_below(alloc, graph, order, &weights)?;
    Ok(sums.as_slice().first() == Some(&row.sum))
}

/// Whether the depth of node 0 is the row's.
fn has_depth(alloc: Global, graph: &Graph, order: &[u32], row: &Counts) -> Result<bool, NoMemory>
    requires { IsTopological graph.now order.now }
{
    let steps = depths(alloc, graph, order)?;
    Ok(steps.as_slice().first() == Some(&row.depth))
}

/// Whether the order has each node of the graph, and the sum and the depth are the row's.
fn are_counts(alloc: Global, graph: &Graph, order: &[u32], row: &Counts) -> bool
    requires nodes { 0 < length graph.now }
    requires order { IsTopological graph.now order.now }
{
    order.len() == graph.len()
        && has_sum(alloc, graph, order, row) == Ok(true)
        && has_depth(alloc, graph, order, row) == Ok(true)
}

/// Whether the graph has an order from node 0, with the row's counts.
fn is_counted(alloc: Global, graph: &Graph, row: &Counts) -> bool
    requires { 0 < length graph.now }
{
    match walk(alloc, graph, 0) {
        Ok(WalkResult::Order(order)) => are_counts(alloc, graph, order.as_slice(), row),
        Ok(WalkResult::Cycle(_)) | Err(NoMemory) => false,
    }
}

/// Whether the row's graph has its counts.
fn is_passed(alloc: Global, row: &Counts) -> bool {
    match graph(alloc, row.source) {
        Ok(Some(graph)) => is_counted(alloc, &graph, row),
        Ok(None) | Err(NoMemory) => false,
    }
}

#[test]
fn weights_and_steps_are_counted(rt: HostRuntime) {
    for row in COUNTS {
        assert!(rt; is_passed(rt.alloc(), row));
    }
}

/// Whether the order from node 0 is this one.
fn has_order(alloc: Global, graph: &Graph, wanted: &[u32]) -> bool
    requires { 0 < length graph.now }
{
    match walk(alloc, graph, 0) {
        Ok(WalkResult::Order(order)) => order.as_slice() == wanted,
        Ok(WalkResult::Cycle(_)) | Err(NoMemory) => false,
    }
}

/// Whether the order from node 0 of the diamond is its order.
fn is_diamond_ordered(alloc: Global) -> bool {
    match graph(alloc, DIAMOND) {
        Ok(Some(diamond)) => has_order(alloc, &diamond, DIAMOND_ORDER),
        Ok(None) | Err(NoMemory) => false,
    }
}

/// Whether lists that lead to no node are no graph.
fn is_astray_refused(alloc: Global) -> bool {
    match lists_of(alloc, ASTRAY) {
        Ok(lists) => !is_graph(lists.as_slice()),
        Err(NoMemory) => false,
    }
}

#[test]
fn a_node_comes_after_those_that_it_leads_to(rt: HostRuntime) {
    assert!(rt; is_diamond_ordered(rt.alloc()));
    assert!(rt; is_astray_refused(rt.alloc()));
}
