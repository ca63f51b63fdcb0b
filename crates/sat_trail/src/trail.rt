ghost use Rattle.std.specs.Prelude.{◌≡◌, ◌-◌, ◌+◌, ◌^◌, ◌<◌, ◌≤◌, ◌++◌, ◌⊎◌, [], ◌∷◌, None, false, length};
ghost use Rattle.std.specs.Prelude.{IsTrue, IsSome, IfOk, OnErr, IfSome, IfNone, is_none};
ghost use Rattle.clause_core.specs.Clause.{VariablesExist};
ghost use Rattle.clause_core.specs.Propagation.{IsFalsified, IsPropagated};
ghost use Rattle.sat_trail.specs.Entry.{values_of, up_to, decided};
ghost use Rattle.sat_trail.specs.State.{IsNumberUpTo, numbering_of, last_number};
ghost use Rattle.sat_trail.specs.Trail.{IsTrail, IsStart, Adds, HasTwoOpen, IsNoReason, Removes, Propagates};

use super::clause_store::ClauseStore;
use super::entry::Entry;
use super::propagation::{examine_new, propagate_entries};
use super::propagation_step::propagate_head;
use super::set_literals::{Entries, backtrack};
use super::watch_choice::{choose, watch_all};
use super::watch_lists::WatchLists;
use clause_core::{Clause, Formula, Lit};
use list_base::{NoMemory, TryClone};
use std::alloc::Global;
use std::marker::Model;

/// Set literals over numbered clauses, of which each watches two literals (Moskewicz et al. 2001).
/// The list of the set literals is also the queue of unit propagation: its first `head` entries are
/// propagated, and the first `examined` clauses were examined since they were added. A clause that
/// was removed leaves the lists of its watched literals when propagation meets it there.
#[derive(Drop)]
pub struct Trail<'f> {
    pub(crate) store: ClauseStore<'f>,
    lists: WatchLists,
    pub(crate) set: Entries,
    pub(crate) level: u32,
    head: usize,
    examined: usize,
    ready: bool,
}

impl<'f> Model for Trail<'f> {
    ghost use Rattle.sat_trail.specs.State.{State};
    ghost use Rattle.sat_trail.specs.inner.Propagation.{IsKept, state_of};

    ghost Value = { State };

    ghost view = { λ a. state_of a.store a.set a.level a.ready };

    ghost invariant = { λ a. IsKept a.store a.lists.cells.items a.lists.heads.items a.set a.level
        a.head a.examined a.ready };
}

impl<'f> Trail<'f> {
    /// The formula's clauses, which are borrowed, get the numbers from 1 on. This takes all memory
    /// that propagation needs.
    pub fn new(alloc: Global, f: &'f Formula) -> Result<Trail<'f>, NoMemory>
        requires { length f.now.clauses < 2 ^ 32 }
        ensures start { IfOk result (IsStart f.now) }
        ensures sound { IfOk result IsTrail }
    {
        let set = Entries::new(alloc, f.vars)?;
        let given = f.clauses.as_slice();
        let store = ClauseStore::new(alloc, given)?;
        let mut lists = WatchLists::new(alloc, f.vars, given.len())?;
        watch_all(&mut lists, &set, given);
        Ok(Trail {
            store,
            lists,
            set,
            level: 0,
            head: 0,
            examined: 0,
            ready: false,
        })
    }

    /// Gives the clause the next number, which it returns. Out of memory drops the clause.
    pub fn add(&mut self, c: Clause) -> Result<u32, NoMemory>
        requires exist { VariablesExist self.old.vars c }
        requires few { last_number self.old + 1 < 2 ^ 32 }
        requires open { (self.old.level ≡ 0) ⊎ HasTwoOpen self.old.entries self.old.level c }
        ensures ok { IfOk result (Adds self.old c self.new) }
        ensures err { OnErr result (self.new ≡ self.old) }
        ensures sound { IsTrail self.new }
    {
        let number = self.store.len() as u32 + 1;
        let vars = self.set.vars();
        let watched = choose(&self.set, c.lits(), self.level);
        self.lists.reserve(number)?;
        self.store.push(c)?;
        self.lists.attach(vars, number, watched);
        self.ready = false;
        Ok(number)
    }

    /// Removes the clause: propagation passes it over from here on.
    pub fn remove(&mut self, clause: u32)
        requires live { IsSome (numbering_of self.old clause) }
        requires no_reason { IsNoReason self.old clause }
        ensures removes { Removes self.old clause self.new }
        ensures sound { IsTrail self.new }
    {
        self.store.remove(clause);
    }

    /// Sets what unit clauses force, until none is left or a clause is false. Gives the number of
    /// the false clause.
    pub fn propagate(&mut self) -> Option<u32>
        ensures grows { Propagates self.old self.new }
        ensures ready { self.new.ready ≡ is_none result }
        ensures propagated { let values = values_of self.new.entries in
            IfNone result (IsPropagated values (numbering_of self.new)) }
        ensures falsified { let values = values_of self.new.entries in
            IfSome result (IsFalsified (numbering_of self.new) values) }
        ensures sound { IsTrail self.new }
    {
        self.ready = false;
        let found = examine_new(
            &self.store,
            &self.lists,
            &mut self.set,
            &mut self.examined,
            self.head,
            self.level,
        );
        if found.is_some() {
            return found;
        }
        let found = propagate_entries(
            &self.store,
            &mut self.lists,
            &mut self.set,
            &mut self.head,
            self.level,
        );
        self.ready = found.is_none();
        found
    }

    /// A part of propagation, perhaps none: it examines the clauses that are new or, if there are
    /// none, propagates the next entry. Gives the number of a clause that turned out false.
    pub fn propagate_next(&mut self) -> Option<u32>
        ensures grows { Propagates self.old self.new }
        ensures ready { self.new.ready ≡ false }
        ensures falsified { let values = values_of self.new.entries in
            IfSome result (IsFalsified (numbering_of self.new) values) }
        ensures sound { IsTrail self.new }
    {
        self.ready = false;
        if self.examined < self.store.len() {
            return examine_new(
                &self.store,
                &self.lists,
                &mut self.set,
                &mut self.examined,
                self.head,
                self.level,
            );
        }
        propagate_head(
            &self.store,
            &mut self.lists,
            &mut self.set,
            &mut self.head,
            self.level,
        )
    }

    /// Whether the last propagation found nothing false, and nothing changed since.
    pub fn ready(&self) -> bool
        ensures { result ≡ self.now.ready }
    {
        self.ready
    }

    /// Sets the literal at a new level.
    pub fn decide(&mut self, lit: Lit)
        requires ready { IsTrue self.old.ready }
        requires exists { IsNumberUpTo self.old.vars lit.var }
        requires no_value { values_of self.old.entries lit.var ≡ None }
        ensures decided { let level = self.old.level + 1 in
            let entries = self.old.entries ++ decided lit level ∷ [] in
            self.new ≡ record self.old { entries = entries; level = level; ready = false } }
        ensures room { length self.old.entries < self.old.vars }
        ensures sound { IsTrail self.new }
    {
        self.head = self.set.len();
        self.level += 1;
        self.set.push(Entry::decision(lit, self.level));
        self.ready = false;
    }

    /// Backtracks: takes the literals of the levels above this one out. The clauses and the lists
    /// of their watches stay as they are.
    pub fn back_to(&mut self, level: u32)
        requires { level ≤ self.old.level }
        ensures kept { let entries = up_to level self.old.entries in
            self.new ≡ record self.old { entries = entries; level = level; ready = false } }
        ensures sound { IsTrail self.new }
    {
        self.ready = false;
        if level < self.level {
            backtrack(&mut self.set, &mut self.head, &mut self.level, level);
        }
    }

    /// A law: what every trail keeps.
    pub fn is_trail(&self)
        ensures { IsTrail self.now }
    {
        let _level = self.level;
    }
}
