ghost use Rattle.std.specs.Prelude.{◌<◌, length, IfOk, IfSome};

use list_base::{NoMemory, NumberList, Seq};
use reference_graph::{Graph, is_graph};
use std::alloc::Global;

/// Where a graph comes from.
#[derive(Clone, Copy)]
pub(crate) enum Source {
    /// The successors of each node.
    Rows(&'static [&'static [u32]]),
    /// As many nodes, each with as many references to the next, and the last with those given.
    Chain(u32, usize, &'static [u32]),
}

/// The rows as lists.
pub(crate) fn lists_of(alloc: Global, rows: &[&[u32]]) -> Result<Seq<NumberList>, NoMemory> {
    let mut lists = Seq::new(alloc);
    for row in rows {
        lists.push(NumberList::from_slice(alloc, row)?)?;
    }
    Ok(lists)
}

/// The list that has the node so many times.
fn repeated(alloc: Global, node: u32, times: usize) -> Result<NumberList, NoMemory> {
    let row = vec![in alloc; node; times]?;
    NumberList::from_slice(alloc, &row)
}

/// The lists of a chain.
fn chain(
    alloc: Global,
    count: u32,
    each: usize,
    last: &[u32],
) -> Result<Seq<NumberList>, NoMemory> {
    let mut lists = Seq::new(alloc);
    for node in 1..count {
        lists.push(repeated(alloc, node, each)?)?;
    }
    lists.push(NumberList::from_slice(alloc, last)?)?;
    Ok(lists)
}

/// The lists of the graph.
fn lists(alloc: Global, source: Source) -> Result<Seq<NumberList>, NoMemory> {
    match source {
        Source::Rows(rows) => lists_of(alloc, rows),
        Source::Chain(count, each, last) => chain(alloc, count, each, last),
    }
}

/// The graph, if it is one with a node.
pub(crate) fn graph(alloc: Global, source: Source) -> Result<Option<Graph>, NoMemory>
    ensures { IfOk result (λ graph. IfSome graph (λ g. 0 < length g)) }
{
    let lists = lists(alloc, source)?;
    Ok(if is_graph(lists.as_slice()) && !lists.is_empty() {
        Some(Graph::of(lists))
    } else {
        None
    })
}
