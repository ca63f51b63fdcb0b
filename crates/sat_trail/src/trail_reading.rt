ghost use Rattle.std.specs.Prelude.{◌≡◌, ◌↔◌, ◌<◌, ◌≤◌, Some, length};
ghost use Rattle.std.specs.Prelude.{IsTrue, IsSome, slice_get, map};
ghost use Rattle.clause_core.specs.Numbering.{HasNumber};
ghost use Rattle.sat_trail.specs.Entry.{values_of, reason_of, level_of};
ghost use Rattle.sat_trail.specs.State.{IsNumberUpTo, numbering_of, last_number};
ghost use Rattle.sat_trail.specs.Trail.{IsTrail};

use super::trail::Trail;
use clause_core::{Clause, Lit};

impl<'f> Trail<'f> {
    /// The number of variables.
    pub fn vars(&self) -> u32
        ensures { result ≡ self.now.vars }
    {
        self.set.vars()
    }

    /// The number of decisions that hold.
    pub fn level(&self) -> u32
        ensures same { result ≡ self.now.level }
        ensures sound { IsTrail self.now }
    {
        // law: what every trail keeps
        self.is_trail();
        self.level
    }

    /// The variable's value, if it has one.
    pub fn value(&self, var: u32) -> Option<bool>
        requires { IsNumberUpTo self.now.vars var }
        ensures { result ≡ values_of self.now.entries var }
    {
        self.set.value(var)
    }

    /// The number of the clause that forced the variable's literal.
    pub fn reason(&self, var: u32) -> Option<u32>
        requires { IsNumberUpTo self.now.vars var }
        ensures { result ≡ reason_of self.now.entries var }
    {
        self.set.of(var).and_then(|entry| entry.reason)
    }

    /// The level at which the variable was set.
    pub fn level_of(&self, var: u32) -> Option<u32>
        requires { IsNumberUpTo self.now.vars var }
        ensures { result ≡ level_of self.now.entries var }
    {
        self.set.of(var).map(|entry| entry.level)
    }

    /// How many literals are set.
    pub fn len(&self) -> u32
        ensures count { result ≡ length self.now.entries }
        ensures within { length self.now.entries ≤ self.now.vars }
    {
        self.set.len() as u32
    }

    /// The literal that was set at this position.
    pub fn at(&self, i: u32) -> Lit
        requires { i < length self.now.entries }
        ensures literal { slice_get (map (λ e. e.lit) self.now.entries) i ≡ Some result }
        ensures from_one { 0 < result.var }
        ensures exists { result.var ≤ self.now.vars }
    {
        self.set.at(i as usize).lit
    }

    /// The last number that was given to a clause.
    pub fn last_number(&self) -> u32
        ensures { result ≡ last_number self.now }
    {
        self.store.len() as u32
    }

    /// Whether a live clause has the number.
    pub fn has_clause(&self, number: u32) -> bool
        ensures { IsTrue result ↔ IsSome (numbering_of self.now number) }
    {
        number > 0 && number as usize <= self.store.len() && self.store.is_live(number)
    }

    /// The live clause of the number.
    pub fn clause(&self, number: u32) -> &Clause
        requires { IsSome (numbering_of self.now number) }
        ensures { HasNumber (numbering_of self.now) number result.now }
    {
        self.store.clause(number)
    }
}
