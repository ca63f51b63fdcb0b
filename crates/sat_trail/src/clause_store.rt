ghost use Rattle.std.specs.Prelude.{◌≡◌, ◌-◌, ◌<◌, ◌↔◌, ◌++◌, [], ◌∷◌, None, Some, IsSome, IsTrue, IfOk, OnOk, OnErr};
ghost use Rattle.std.specs.Prelude.{length, map, slice_set, All};
ghost use Rattle.clause_core.specs.Numbering.{HasNumber, live};
ghost use Rattle.sat_trail.specs.State.{IsNumberUpTo};
ghost use Rattle.sat_trail.specs.inner.Flat.{IsPackable};

use super::flat_clauses::{FlatClauses, flattened};
use super::packed_lit::PackedLit;
use clause_core::{Clause, ClauseList};
use list_base::{NoMemory, Seq};
use std::alloc::Global;
use std::marker::Model;

/// Numbered clauses: those of a formula, which are borrowed, and then those that were added. The
/// literals of each stand a second time in a flat list, for propagation. A clause that is removed
/// stays where it is, and its span in the flat list says that it is not live.
#[derive(Drop)]
pub struct ClauseStore<'f> {
    given: &'f [Clause],
    added: ClauseList,
    flat: FlatClauses,
}

impl<'f> Model for ClauseStore<'f> {
    ghost use Rattle.std.specs.Prelude.{Option, List, ◌++◌};
    ghost use Rattle.std.specs.List.{AllZip};
    ghost use Rattle.clause_core.specs.declared.literal.Lit.{Lit};
    ghost use Rattle.sat_trail.specs.inner.Flat.{IsCopy};

    ghost Value = { List (Option (List Lit)) };

    ghost view = { λ s. s.flat };

    ghost invariant = { λ s. AllZip IsCopy s.flat (s.given.now ++ s.added) };
}

impl<'f> ClauseStore<'f> {
    /// The clauses have the numbers from 1 on.
    pub fn new(alloc: Global, given: &'f [Clause]) -> Result<ClauseStore<'f>, NoMemory>
        requires { All IsPackable given.now }
        ensures { IfOk result (λ s. s ≡ map Some given.now) }
    {
        Ok(ClauseStore {
            given,
            added: Seq::new(alloc),
            flat: flattened(alloc, given)?,
        })
    }

    /// The last number that was given to a clause.
    pub fn len(&self) -> usize
        ensures { result ≡ length self.now }
    {
        self.flat.len()
    }

    /// Whether the clause of the number, counted from 1, was not removed.
    pub fn is_live(&self, number: u32) -> bool
        requires { IsNumberUpTo (length self.now) number }
        ensures { IsTrue result ↔ IsSome (live self.now number) }
    {
        self.flat.is_live(number)
    }

    /// The literals of the clause of the number.
    pub fn lits(&self, number: u32) -> &[PackedLit]
        requires { IsSome (live self.now number) }
        ensures { HasNumber (live self.now) number result.now }
    {
        self.flat.lits(number)
    }

    /// The clause of the number.
    pub fn clause(&self, number: u32) -> &Clause
        requires { IsSome (live self.now number) }
        ensures { HasNumber (live self.now) number result.now }
    {
        let index = number as usize - 1;
        if index < self.given.len() {
            return &self.given[index];
        }
        self.added.at(index - self.given.len())
    }

    /// Gives the clause the next number.
    pub fn push(&mut self, c: Clause) -> Result<(), NoMemory>
        requires { IsPackable c }
        ensures ok { OnOk result (self.new ≡ self.old ++ Some c ∷ []) }
        ensures err { OnErr result (self.new ≡ self.old) }
    {
        self.flat.push(&c)?;
        if let Err(e) = self.added.push(c) {
            self.flat.pop();
            return Err(e);
        }
        Ok(())
    }

    /// The number has no clause from here on.
    pub fn remove(&mut self, number: u32)
        requires { IsNumberUpTo (length self.old) number }
        ensures { self.new ≡ slice_set self.old (number - 1) None }
    {
        self.flat.remove(number);
    }
}
