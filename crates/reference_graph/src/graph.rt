ghost use Rattle.std.specs.Prelude.{◌≡◌, ◌<◌, ◌↔◌, length, IsTrue, All};
ghost use Rattle.reference_graph.specs.Graph.{successors, AreNodes, IsGraph};

use list_base::{NumberList, Seq};
use std::marker::Model;

/// A graph of references. Contracts see, for each node, the nodes that it refers to, in order.
#[derive(Drop)]
pub struct Graph {
    lists: Seq<NumberList>,
}

impl Model for Graph {
    ghost use Rattle.std.specs.Prelude.{List, ℕ};
    ghost use Rattle.reference_graph.specs.Graph.{IsGraph};

    ghost Value = { List (List ℕ) };

    ghost view = { λ a. a.lists };

    ghost invariant = { λ a. IsGraph a.lists };
}

impl Graph {
    /// The graph in which each node refers to the nodes of its list.
    pub fn of(lists: Seq<NumberList>) -> Graph
        requires { IsGraph lists }
        ensures { result ≡ lists }
    {
        Graph { lists }
    }

    /// How many nodes there are.
    pub fn len(&self) -> usize
        ensures { result ≡ length self.now }
    {
        self.lists.len()
    }

    /// The nodes that the node refers to, in order.
    pub fn references(&self, node: u32) -> &[u32]
        requires { node < length self.now }
        ensures lists { result.now ≡ successors self.now node }
        ensures nodes { AreNodes self.now result.now }
    {
        self.lists.at(node as usize).as_slice()
    }
}

/// Whether there are fewer than 2^32 lists, and each number in them is that of a list.
pub fn is_graph(lists: &[NumberList]) -> bool
    ensures { IsTrue result ↔ IsGraph lists.now }
{
    lists.len() <= u32::MAX as usize && are_nodes(lists, lists.len())
}

/// Whether each number in the lists is below the count.
fn are_nodes(lists: &[NumberList], count: usize) -> bool
    ensures { IsTrue result ↔ All (λ list. All (λ b. b < count) list) lists.now }
{
    lists.iter().all(|list| are_below(list.as_slice(), count))
}

/// Whether each of the numbers is below the count.
fn are_below(numbers: &[u32], count: usize) -> bool
    ensures { IsTrue result ↔ All (λ b. b < count) numbers.now }
{
    numbers.iter().all(|b| (*b as usize) < count)
}
