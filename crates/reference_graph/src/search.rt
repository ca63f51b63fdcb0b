ghost use Rattle.std.specs.Prelude.{◌≡◌, ◌<◌, [], ◌∷◌, ◌++◌, length, slice_set, IfOk, OnOk};
ghost use Rattle.reference_graph.specs.Path.{last_node};
ghost use Rattle.reference_graph.specs.inner.Search.{IsSearching, IsProgress};

use super::edge::Edge;
use super::graph::Graph;
use super::marks::{Mark, Marks};
use list_base::{NoMemory, NumberList, Seq};
use std::alloc::Global;

/// A depth-first search: the path that it is on, the index of the next reference of its last node,
/// and the finished nodes, in the order in which they were finished.
#[derive(Drop)]
pub struct Search {
    pub start: u32,
    pub path: Seq<Edge>,
    pub next: usize,
    pub marks: Marks,
    pub done: NumberList,
}

/// What one step of a search comes to.
#[derive(Clone, Copy, Debug)]
pub enum Progress {
    /// The search goes on.
    Continues,
    /// The start is finished.
    Ends,
    /// The next reference closes a cycle at this node.
    FindsCycle(u32),
}

impl Search {
    /// The search that begins at the start.
    pub fn new(alloc: Global, graph: &Graph, start: u32) -> Result<Search, NoMemory>
        requires { start < length graph.now }
        ensures searching { IfOk result (IsSearching graph.now) }
        ensures start { IfOk result (λ search. search.start ≡ start) }
    {
        let mut marks = Marks::new(alloc, graph.len())?;
        marks.set(start, Mark::OnPath);
        Ok(Search {
            start,
            path: Seq::new(alloc),
            next: 0,
            marks,
            done: Seq::new(alloc),
        })
    }

    /// Looks at the next reference of the last node on the path. A node is finished once all its
    /// references are.
    pub fn advance(&mut self, graph: &Graph) -> Result<Progress, NoMemory>
        requires { IsSearching graph.now self.old }
        ensures { IfOk result (IsProgress graph.now self.old self.new) }
    {
        let node = self.last();
        let references = graph.references(node);
        if self.next < references.len() {
            let next = references[self.next];
            return match self.marks.of(next) {
                Mark::New => self.follow(next),
                Mark::OnPath => Ok(Progress::FindsCycle(next)),
                Mark::Done => {
                    self.next += 1;
                    Ok(Progress::Continues)
                }
            };
        }
        self.done.push(node)?;
        match self.path.pop() {
            None => Ok(Progress::Ends),
            Some(edge) => {
                self.marks.set(node, Mark::Done);
                self.next = edge.index;
                Ok(Progress::Continues)
            }
        }
    }

    /// Goes on to the node, by the reference that is next.
    fn follow(&mut self, node: u32) -> Result<Progress, NoMemory>
        requires { node < length self.old.marks }
        ensures on { IfOk result (λ progress. progress ≡ Progress.Continues) }
        ensures node { OnOk result (self.new ≡ record self.old {
          path = self.old.path ++ (record { index = self.old.next; node = node }) ∷ [];
          next = 0;
          marks = slice_set self.old.marks node Mark.OnPath;
        }) }
    {
        self.path.push(Edge {
            index: self.next,
            node,
        })?;
        self.next = 0;
        self.marks.set(node, Mark::OnPath);
        Ok(Progress::Continues)
    }

    /// The last node on the path.
    fn last(&self) -> u32
        ensures { result ≡ last_node self.now.start self.now.path }
    {
        match self.path.as_slice().last() {
            Some(edge) => edge.node,
            None => self.start,
        }
    }
}
