ghost use Rattle.std.specs.Prelude.{◌≡◌, ◌+◌, ◌<◌, ◌≤◌, length, IfOk};
ghost use Rattle.clause_core.specs.Clause.{VariablesExist};
ghost use Rattle.sat_solver.specs.inner.Queue.{AreLinks};

use clause_core::Lit;
use list_base::NoMemory;
use order_propagator::OrderTrail;
use std::alloc::Global;

/// The variables, those that were moved last at the front (VMTF: Ryan 2004, of the solver siege),
/// with the values that they had last (Pipatsrisawat and Darwiche 2007). The links make a circle:
/// after 0 comes the front, and before it the back.
#[derive(Drop)]
pub struct VariableQueue {
    pub vars: u32,
    next: Vec<u32>,
    previous: Vec<u32>,
    /// The number of the move that brought the variable to the front.
    stamps: Vec<u64>,
    saved: Vec<bool>,
    /// The variables of higher stamps are set; 0 if all are.
    start: u32,
    moves: u64,
    ghost next_links: { AreLinks vars next.items },
    ghost previous_links: { AreLinks vars previous.items },
    ghost stamp_cells: { length stamps.items ≡ vars + 1 },
    ghost saved_cells: { length saved.items ≡ vars + 1 },
    ghost start_exists: { start ≤ vars },
}

impl VariableQueue {
    /// The variables from 1, at the front, to `vars`; each is saved as false.
    pub fn new(alloc: Global, vars: u32) -> Result<VariableQueue, NoMemory>
        ensures { IfOk result (λ queue. queue.vars ≡ vars) }
    {
        let cells = vars as usize + 1;
        let mut queue = VariableQueue {
            vars,
            next: vec![in alloc; 0; cells]?,
            previous: vec![in alloc; 0; cells]?,
            stamps: vec![in alloc; 0; cells]?,
            saved: vec![in alloc; false; cells]?,
            start: 0,
            moves: 0,
        };
        for index in 0..vars {
            queue.push_front(vars - index);
        }
        queue.start = queue.next[0];
        Ok(queue)
    }

    /// The unset variable of the highest stamp, with the value that it had last.
    pub fn newest_unset(&mut self, trail: &OrderTrail) -> Option<Lit>
        requires { self.old.vars ≡ trail.now.vars }
        ensures { self.new.vars ≡ self.old.vars }
    {
        for _ in 0..self.vars {
            if self.start == 0 {
                return None;
            }
            if trail.value(self.start).is_none() {
                return Some(Lit {
                    var: self.start,
                    positive: self.saved[self.start as usize],
                });
            }
            self.start = self.next[self.start as usize];
        }
        None
    }

    /// Saves the value of a variable that is going to be unset.
    pub fn save(&mut self, lit: Lit)
        requires { lit.var ≤ self.old.vars }
        ensures { self.new.vars ≡ self.old.vars }
    {
        let var = lit.var as usize;
        self.saved[var] = lit.positive;
        if self.stamps[self.start as usize] < self.stamps[var] {
            self.start = lit.var;
        }
    }

    /// Moves the variables of the clause to the front, that of the lowest stamp first.
    pub fn move_to_front(&mut self, alloc: Global, clause: &[Lit]) -> Result<(), NoMemory>
        requires { VariablesExist self.old.vars clause.now }
        ensures { self.new.vars ≡ self.old.vars }
    {
        let mut order: Vec<(u64, u32)> = Vec::new(alloc);
        for lit in clause {
            order.push((self.stamps[lit.var as usize], lit.var))?;
        }
        order.sort_unstable_by_key(|entry| entry.0);
        for entry in order.as_slice() {
            self.move_var(entry.1);
        }
        Ok(())
    }

    /// Moves a variable to the front, where it may be already.
    fn move_var(&mut self, var: u32)
        requires { var ≤ self.old.vars }
        ensures { self.new.vars ≡ self.old.vars }
    {
        if self.next[0] != var {
            let (before, after) = (self.previous[var as usize], self.next[var as usize]);
            self.link(before, after);
            self.push_front(var);
        }
    }

    /// Puts a variable that is not linked before the others.
    fn push_front(&mut self, var: u32)
        requires { var ≤ self.old.vars }
        ensures { self.new.vars ≡ self.old.vars }
    {
        let front = self.next[0];
        self.link(var, front);
        self.link(0, var);
        self.moves = self.moves.saturating_add(1);
        self.stamps[var as usize] = self.moves;
    }

    /// Makes the second variable come after the first.
    fn link(&mut self, first: u32, second: u32)
        requires first { first ≤ self.old.vars }
        requires second { second ≤ self.old.vars }
        ensures { self.new.vars ≡ self.old.vars }
    {
        self.next[first as usize] = second;
        self.previous[second as usize] = first;
    }
}
