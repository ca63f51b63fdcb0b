ghost use Rattle.std.specs.Prelude.{◌≡◌, ◌<◌, ◌≤◌, ◌↔◌, ◌++◌, [], ◌∷◌, IsTrue, IfOk, Contains};
ghost use Rattle.std.specs.Bool.{OnTrue, OnFalse};
ghost use Rattle.sat_solver.specs.inner.LiteralSet.{IsLiteralSet, MayEnter, TakesOut};

use clause_core::Lit;
use list_base::NoMemory;
use std::alloc::Global;
use std::marker::Model;

/// A set of literals, at most one of each variable. The cell of a variable has the position of its
/// literal, from 1, or 0, and all memory is taken at the start.
#[derive(Drop)]
pub struct LitSet {
    slots: Vec<Lit>,
    len: usize,
    positions: Vec<u32>,
}

impl Model for LitSet {
    ghost use Rattle.std.specs.Prelude.{length, take};
    ghost use Rattle.sat_solver.specs.inner.LiteralSet.{LiteralSet, IsStoredSet};

    ghost Value = { LiteralSet };

    ghost view = { λ a. record {
      vars = length a.positions.items;
      lits = take a.len a.slots.items;
    } };

    ghost invariant = { λ a. IsStoredSet a.slots.items a.len a.positions.items };
}

impl LitSet {
    /// No literal yet.
    pub fn new(alloc: Global, vars: u32) -> Result<LitSet, NoMemory>
        ensures { IfOk result (λ s. s ≡ record { vars = vars; lits = [] }) }
    {
        let blank = Lit {
            var: 0,
            positive: false,
        };
        Ok(LitSet {
            slots: vec![in alloc; blank; vars as usize]?,
            len: 0,
            positions: vec![in alloc; 0; vars as usize]?,
        })
    }

    /// The number of variables.
    pub fn vars(&self) -> u32
        ensures { result ≡ self.now.vars }
    {
        self.positions.len() as u32
    }

    /// The literals in some order.
    pub fn as_slice(&self) -> &[Lit]
        ensures same { result.now ≡ self.now.lits }
        ensures set { IsLiteralSet self.now }
    {
        &self.slots[..self.len]
    }

    /// Whether the literal is in.
    pub fn has(&self, lit: Lit) -> bool
        requires from_one { 0 < lit.var }
        requires exists { lit.var ≤ self.now.vars }
        ensures { IsTrue result ↔ Contains self.now.lits lit }
    {
        let position = self.positions[lit.var as usize - 1] as usize;
        if position == 0 {
            return false;
        }
        self.slots[position - 1] == lit
    }

    /// Puts the literal in, and says whether it is new.
    pub fn insert(&mut self, lit: Lit) -> bool
        requires { MayEnter self.old lit }
        ensures pushed { let lits = self.old.lits ++ lit ∷ [] in
            OnTrue result (self.new ≡ record self.old { lits = lits }) }
        ensures same { OnFalse result (self.new ≡ self.old) }
        ensures new { IsTrue result ↔ ¬ Contains self.old.lits lit }
        ensures set { IsLiteralSet self.new }
    {
        if self.has(lit) {
            return false;
        }
        self.slots[self.len] = lit;
        self.len += 1;
        self.positions[lit.var as usize - 1] = self.len as u32;
        true
    }

    /// Takes the literal out. The last one moves to its position.
    pub fn remove(&mut self, lit: Lit)
        requires { Contains self.old.lits lit }
        ensures vars { self.new.vars ≡ self.old.vars }
        ensures taken { TakesOut self.old.lits lit self.new.lits }
        ensures set { IsLiteralSet self.new }
    {
        let position = self.positions[lit.var as usize - 1];
        self.len -= 1;
        let last = self.slots[self.len];
        self.slots[position as usize - 1] = last;
        self.positions[last.var as usize - 1] = position;
        self.positions[lit.var as usize - 1] = 0;
    }

    /// Takes all literals out, in the time that their number takes.
    pub fn clear(&mut self)
        ensures { self.new ≡ record self.old { lits = [] } }
    {
        while self.len > 0 {
            let last = self.slots[self.len - 1];
            self.remove(last);
        }
    }
}
