ghost use Rattle.std.specs.Prelude.{◌≡◌, ◌<◌, ◌≤◌, ◌↔◌, [], ◌∷◌, IsTrue, IfOk, OnOk};
ghost use Rattle.clause_core.specs.Clause.{VariablesExist};
ghost use Rattle.log_checker.specs.inner.Marks.{IsMarked, Marks};
ghost use Rattle.log_checker.specs.inner.Marks.{AddsMarks, TakesMark, ResolvesMarks};

use clause_core::{Clause, Lit};
use list_base::NoMemory;
use std::alloc::Global;
use std::marker::Model;

/// A mark for each literal. The list of the literals that were marked since the table was empty
/// makes clearing cheap.
#[derive(Drop)]
pub struct MarkTable {
    vars: u32,
    cells: Vec<bool>,
    touched: Vec<Lit>,
}

impl Model for MarkTable {
    ghost use Rattle.log_checker.specs.inner.Marks.{MarkCells, IsMarkTable};

    ghost Value = { MarkCells };

    ghost view = { λ a. record { vars = a.vars; cells = a.cells.items } };

    ghost invariant = { λ a.
        IsMarkTable (record { vars = a.vars; cells = a.cells.items }) a.touched.items };
}

impl MarkTable {
    /// Nothing is marked.
    pub fn new(alloc: Global, vars: u32) -> Result<MarkTable, NoMemory>
        ensures vars { IfOk result (λ table. table.vars ≡ vars) }
        ensures empty { IfOk result (λ table. Marks table []) }
    {
        Ok(MarkTable {
            vars,
            cells: vec![in alloc; false; 2 * vars as usize + 2]?,
            touched: Vec::new(alloc),
        })
    }

    /// Whether the literal is marked.
    pub fn has(&self, lit: Lit) -> bool
        ensures { IsTrue result ↔ IsMarked self.now lit }
    {
        match self.cells.get(lit.rank() as usize) {
            Some(marked) => *marked,
            None => false,
        }
    }

    /// Marks the literals of a clause.
    pub fn insert_all(&mut self, clause: &[Lit]) -> Result<(), NoMemory>
        requires { VariablesExist self.old.vars clause.now }
        ensures { OnOk result (AddsMarks self.old clause.now self.new) }
    {
        for lit in clause {
            self.insert(*lit)?;
        }
        Ok(())
    }

    /// Takes the pivot's mark, and marks the other literals of the clause that has its negation.
    pub fn resolve(&mut self, pivot: Lit, clause: &[Lit]) -> Result<(), NoMemory>
        requires marked { IsMarked self.old pivot }
        requires exist { VariablesExist self.old.vars clause.now }
        ensures { OnOk result (ResolvesMarks self.old pivot clause.now self.new) }
    {
        self.remove(pivot);
        let negation = pivot.negation();
        for lit in clause {
            if *lit == negation {
                continue;
            }
            self.insert(*lit)?;
        }
        Ok(())
    }

    /// The clause of the marked literals, whose marks are taken.
    pub fn take_clause(&mut self, alloc: Global) -> Result<Clause, NoMemory>
        ensures clause { IfOk result (λ clause. Marks self.old clause) }
        ensures exist { IfOk result (λ clause. VariablesExist self.old.vars clause) }
        ensures empty { OnOk result (Marks self.new []) }
        ensures vars { self.new.vars ≡ self.old.vars }
    {
        let mut lits = Vec::new(alloc);
        while let Some(lit) = self.touched.pop() {
            let index = lit.rank() as usize;
            if self.cells[index] {
                self.cells[index] = false;
                lits.push(lit)?;
            }
        }
        Clause::of(alloc, lits.as_slice())
    }

    /// Marks the literal.
    fn insert(&mut self, lit: Lit) -> Result<(), NoMemory>
        requires from_one { 0 < lit.var }
        requires exists { lit.var ≤ self.old.vars }
        ensures { OnOk result (AddsMarks self.old (lit ∷ []) self.new) }
    {
        let index = lit.rank() as usize;
        if !self.cells[index] {
            self.touched.push(lit)?;
            self.cells[index] = true;
        }
        Ok(())
    }

    /// Takes the mark of the literal.
    fn remove(&mut self, lit: Lit)
        requires { IsMarked self.old lit }
        ensures { TakesMark self.old lit self.new }
    {
        self.cells[lit.rank() as usize] = false;
    }
}
