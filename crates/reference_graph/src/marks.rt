ghost use Rattle.std.specs.Prelude.{◌≡◌, ◌<◌, IfOk, length, replicate, slice_get, slice_set, Some};

use list_base::NoMemory;
use std::alloc::Global;
use std::marker::Model;

/// How far a search has come with a node.
#[derive(Clone, Copy, Debug)]
pub enum Mark {
    /// No reference to it was followed yet.
    New,
    /// It is on the path.
    OnPath,
    /// All that it leads to is finished.
    Done,
}

/// A mark for each node.
#[derive(Drop)]
pub struct Marks {
    marks: Vec<Mark>,
}

impl Model for Marks {
    ghost use Rattle.std.specs.Prelude.{List};
    ghost use Rattle.reference_graph.specs.declared.marks.Mark.{Mark};

    ghost Value = { List Mark };

    ghost view = { λ a. a.marks.items };
}

impl Marks {
    /// Marks for this number of nodes, all of them new.
    pub fn new(alloc: Global, count: usize) -> Result<Marks, NoMemory>
        ensures { IfOk result (λ marks. marks ≡ replicate count Mark.New) }
    {
        Ok(Marks {
            marks: vec![in alloc; Mark::New; count]?,
        })
    }

    /// The mark of the node.
    pub fn of(&self, node: u32) -> Mark
        requires { node < length self.now }
        ensures { slice_get self.now node ≡ Some result }
    {
        self.marks[node as usize]
    }

    /// Gives the node this mark.
    pub fn set(&mut self, node: u32, mark: Mark)
        requires { node < length self.old }
        ensures { self.new ≡ slice_set self.old node mark }
    {
        self.marks[node as usize] = mark;
    }
}
