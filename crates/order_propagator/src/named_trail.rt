ghost use Rattle.std.specs.Prelude.{◌≡◌, None, OnOk, IfErr};
ghost use Rattle.order_propagator.specs.inner.Closing.{IsStopAt};

use super::making::cycle_clause;
use super::stop::Stop;
use clause_core::Clause;
use list_base::{NoMemory, NumberList};
use order_axioms::Order;
use sat_trail::Trail;
use std::alloc::Global;

/// A trail whose clauses have names: the numbers that they have in the whole formula. Clauses of
/// the order are in it as far as they were made.
#[derive(Drop)]
pub struct NamedTrail<'f> {
    pub trail: Trail<'f>,
    /// The name of each clause, by its number in the trail.
    pub names: NumberList,
}

impl<'f> NamedTrail<'f> {
    ghost use Rattle.std.specs.Prelude.{◌≡◌, ◌+◌, ◌^◌, ◌<◌, ◌≤◌, ◌⊎◌, length, Contains, IsTrue};
    ghost use Rattle.std.specs.Prelude.{IfOk, OnOk, OnErr, IfErr};
    ghost use Rattle.clause_core.specs.Clause.{VariablesExist};
    ghost use Rattle.order_axioms.specs.Order.{AreKinds, ForbidsCycle};
    ghost use Rattle.sat_trail.specs.State.{last_number};
    ghost use Rattle.sat_trail.specs.Trail.{HasTwoOpen, IsTrail, Propagates};
    ghost use Rattle.order_propagator.specs.inner.Closing.{IsStop};
    ghost use Rattle.order_propagator.specs.inner.Names.{HasName};
    ghost use Rattle.order_propagator.specs.inner.Making.{AddsNamed, CanMake, Makes, MayBeMade};

    /// The number that the next clause of the trail gets. It is out of memory once a `u32` has no
    /// further one.
    pub fn next_number(&self) -> Result<u32, NoMemory>
        ensures { IfOk result (λ number. number ≡ last_number self.now.trail + 1) }
    {
        let last = self.trail.last_number();
        if last == u32::MAX {
            return Err(NoMemory);
        }
        Ok(last + 1)
    }

    /// Adds the clause under the name.
    pub fn add(&mut self, clause: Clause, name: u32) -> Result<(), NoMemory>
        requires exist { VariablesExist self.old.trail.vars clause }
        requires few { last_number self.old.trail + 1 < 2 ^ 32 }
        requires open { let t = self.old.trail in
            (t.level ≡ 0) ⊎ HasTwoOpen t.entries t.level clause }
        ensures ok { OnOk result (AddsNamed self.old clause name self.new) }
        ensures err { OnErr result (self.new ≡ self.old) }
        ensures sound { IsTrail self.new.trail }
    {
        // law: what every trail keeps
        self.trail.is_trail();
        self.names.push(name)?;
        match self.trail.add(clause) {
            Ok(_number) => Ok(()),
            Err(error) => {
                let _name = self.names.pop();
                Err(error)
            }
        }
    }

    /// Propagates until nothing is left to do or a clause is false.
    pub fn propagate(&mut self) -> Result<(), Stop>
        ensures propagates { Propagates self.old.trail self.new.trail }
        ensures names { self.new.names ≡ self.old.names }
        ensures ready { OnOk result (IsTrue self.new.trail.ready) }
        ensures stop { IfErr result (IsStop self.new.trail) }
        ensures sound { IsTrail self.new.trail }
    {
        stopped(self.trail.propagate())
    }

    /// Propagates a part of that.
    pub fn propagate_next(&mut self) -> Result<(), Stop>
        ensures propagates { Propagates self.old.trail self.new.trail }
        ensures names { self.new.names ≡ self.old.names }
        ensures stop { IfErr result (IsStop self.new.trail) }
        ensures sound { IsTrail self.new.trail }
    {
        stopped(self.trail.propagate_next())
    }

    /// The name of the clause of the number.
    pub fn name(&self, number: u32) -> u32
        requires from_one { 0 < number }
        requires within { number ≤ length self.now.names }
        ensures { HasName self.now.names number result }
    {
        *self.names.at(number as usize - 1)
    }

    /// Makes the order's clause of the number, which is its name. It forbids that `x` comes before
    /// `y`, `y` before `z` and `z` before `x`.
    pub fn make(
        &mut self,
        alloc: Global,
        order: Order,
        number: u32,
        x: u32,
        y: u32,
        z: u32,
    ) -> Result<(), NoMemory>
        requires can { CanMake order self.old }
        requires may { MayBeMade order self.old.trail number }
        requires kinds { AreKinds order x y z }
        requires forbids { ForbidsCycle order number x y z }
        ensures makes { Makes order self.old self.new }
        ensures made { OnOk result (Contains self.new.names number) }
    {
        let _number = self.next_number()?;
        let clause = cycle_clause(alloc, order, number, x, y, z)?;
        self.add(clause, number)
    }
}

/// A stop at a false clause, if there is one.
fn stopped(found: Option<u32>) -> Result<(), Stop>
    ensures none { OnOk result (found ≡ None) }
    ensures some { IfErr result (IsStopAt found) }
{
    match found {
        None => Ok(()),
        Some(number) => Err(Stop::Falsified(number)),
    }
}
