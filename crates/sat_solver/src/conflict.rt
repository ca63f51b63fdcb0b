use super::analysis::{Derivation, derive_asserting, derive_empty, lower_level};
use super::learner::Learner;
use list_base::NoMemory;
use std::alloc::Global;

impl<'f> Learner<'f> {
    ghost use Rattle.std.specs.Prelude.{◌≡◌, ◌+◌, ◌^◌, ◌<◌, OnOk};
    ghost use Rattle.clause_core.specs.Propagation.{IsFalsified};
    ghost use Rattle.sat_trail.specs.Entry.{values_of};
    ghost use Rattle.sat_trail.specs.State.{numbering_of, last_number};
    ghost use Rattle.sat_solver.specs.inner.Learner.{LearnsOne, RefutesBy};

    /// Learns a clause from the false one of this number, above level 0: backjumps to where the
    /// clause has one literal left, or to level 0 for a restart, and adds it.
    pub fn learn(&mut self, alloc: Global, number: u32) -> Result<(), NoMemory>
        requires falsified { let values = values_of self.old.trail.entries in
            IsFalsified (numbering_of self.old.trail) values number }
        requires above { 0 < self.old.trail.level }
        requires few { last_number self.old.trail + 1 < 2 ^ 32 }
        ensures { OnOk result (LearnsOne self.old self.new) }
    {
        let Derivation { chain, clause } = derive_asserting(
            alloc,
            &self.trail,
            number,
            &mut self.implied,
            &mut self.lits,
        )?;
        // law: what every trail keeps
        self.trail.is_trail();
        let asserting = lower_level(&self.trail, clause.lits());
        let level = self
            .rule
            .take_in(alloc, &self.trail, clause.lits(), asserting)?;
        self.trail.back_to(level);
        self.trail.add(clause)?;
        self.steps.push(chain)
    }

    /// Derives the empty clause from the false one of this number, at level 0.
    pub fn refute(&mut self, alloc: Global, number: u32) -> Result<(), NoMemory>
        requires falsified { let values = values_of self.old.trail.entries in
            IsFalsified (numbering_of self.old.trail) values number }
        requires at_0 { self.old.trail.level ≡ 0 }
        ensures { OnOk result (RefutesBy number self.old self.new) }
    {
        let Derivation { chain, clause: _ } = derive_empty(
            alloc,
            &self.trail,
            number,
            &mut self.lits,
        )?;
        self.steps.push(chain)
    }
}
