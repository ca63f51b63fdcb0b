ghost use Rattle.std.specs.Prelude.{◌≡◌, ◌+◌, ◌^◌, ◌<◌, All, length, IfOk, Some, slice_get};
ghost use Rattle.std.specs.Prelude.{slice_index_or, map};
ghost use Rattle.std.specs.List.{sum_by};
ghost use Rattle.reference_graph.specs.PathCounts.{weight_below, depth_within, saturated, greatest};
ghost use Rattle.reference_graph.specs.Order.{IsTopological};

use super::graph::Graph;
use list_base::{NoMemory, Seq};
use std::alloc::Global;

/// For each node of the order, how many paths lead on from it, each weighed by the node where it
/// ends, or the last number of 64 bits if there are more.
pub fn weights_below(
    alloc: Global,
    graph: &Graph,
    order: &[u32],
    weights: &[u64],
) -> Result<Seq<u64>, NoMemory>
    requires topological { IsTopological graph.now order.now }
    requires weights { length weights.now ≡ length graph.now }
    ensures { let count = length graph.now in
        IfOk result (λ sums. All (λ a. slice_get sums a ≡
        Some (saturated (weight_below count graph.now weights.now a))) order.now) }
{
    let mut sums = vec![in alloc; 0u64; graph.len()]?;
    for node in order {
        let sum = sum_from(graph.references(*node), &sums, weights[*node as usize]);
        sums[*node as usize] = sum;
    }
    Seq::from_slice(alloc, &sums)
}

/// The sum of the numbers at these indices, and of one more, or the last number of 64 bits.
fn sum_from(indices: &[u32], numbers: &[u64], own: u64) -> u64
    requires { All (λ index. index < length numbers.now) indices.now }
    ensures { result ≡
        saturated (own + sum_by (λ index. slice_index_or numbers.now index 0) indices.now) }
{
    let mut sum = own;
    for index in indices {
        sum = sum.saturating_add(numbers[*index as usize]);
    }
    sum
}

/// For each node of the order, how many edges the longest path from it has.
pub fn depths(alloc: Global, graph: &Graph, order: &[u32]) -> Result<Seq<u64>, NoMemory>
    requires { IsTopological graph.now order.now }
    ensures { let count = length graph.now in
        IfOk result (λ depths. All (λ a. slice_get depths a ≡
        Some (depth_within count graph.now a)) order.now) }
{
    let mut depths = vec![in alloc; 0u64; graph.len()]?;
    for node in order {
        let depth = depth_over(graph.references(*node), &depths);
        depths[*node as usize] = depth;
    }
    Seq::from_slice(alloc, &depths)
}

/// One more than the greatest of the numbers at these indices, or 0 if there is no index.
fn depth_over(indices: &[u32], numbers: &[u64]) -> u64
    requires within { All (λ index. index < length numbers.now) indices.now }
    requires small { All (λ number. number + 1 < 2 ^ 64) numbers.now }
    ensures { result ≡
        greatest (map (λ index. slice_index_or numbers.now index 0 + 1) indices.now) }
{
    let mut depth: u64 = 0;
    for index in indices {
        depth = depth.max(numbers[*index as usize] + 1);
    }
    depth
}
