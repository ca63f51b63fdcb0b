ghost use Rattle.std.specs.Prelude.{◌≡◌, ◌↔◌, ◌<◌, ◌≤◌, Some, length};
ghost use Rattle.std.specs.Prelude.{IsTrue, IsSome, slice_get, map};
ghost use Rattle.clause_core.specs.Numbering.{HasNumber};
ghost use Rattle.sat_trail.specs.Entry.{values_of, reason_of, level_of};
ghost use Rattle.sat_trail.specs.State.{IsNumberUpTo, numbering_of, last_number};
ghost use Rattle.sat_trail.specs.Trail.{IsTrail};

use super::trail::OrderTrail;
use clause_core::Lit;
use order_axioms::LentClause;

impl<'f> OrderTrail<'f> {
    /// The number of variables.
    pub fn vars(&self) -> u32
        ensures { result ≡ self.now.vars }
    {
        self.named.trail.vars()
    }

    /// The number of decisions that hold.
    pub fn level(&self) -> u32
        ensures same { result ≡ self.now.level }
        ensures sound { IsTrail self.now }
    {
        // law: what every trail keeps
        self.is_trail();
        self.named.trail.level()
    }

    /// Whether the last propagation found nothing false, and nothing changed since.
    pub fn ready(&self) -> bool
        ensures { result ≡ self.now.ready }
    {
        self.ready
    }

    /// The variable's value, if it has one.
    pub fn value(&self, var: u32) -> Option<bool>
        requires { IsNumberUpTo self.now.vars var }
        ensures { result ≡ values_of self.now.entries var }
    {
        self.named.trail.value(var)
    }

    /// The number of the clause that forced the variable's literal.
    pub fn reason(&self, var: u32) -> Option<u32>
        requires { IsNumberUpTo self.now.vars var }
        ensures { result ≡ reason_of self.now.entries var }
    {
        match self.named.trail.reason(var) {
            Some(number) => Some(self.named.name(number)),
            None => None,
        }
    }

    /// The level at which the variable was set.
    pub fn level_of(&self, var: u32) -> Option<u32>
        requires { IsNumberUpTo self.now.vars var }
        ensures { result ≡ level_of self.now.entries var }
    {
        self.named.trail.level_of(var)
    }

    /// How many literals are set.
    pub fn len(&self) -> u32
        ensures count { result ≡ length self.now.entries }
        ensures within { length self.now.entries ≤ self.now.vars }
    {
        self.named.trail.len()
    }

    /// The literal that was set at this position.
    pub fn at(&self, i: u32) -> Lit
        requires { i < length self.now.entries }
        ensures literal { slice_get (map (λ e. e.lit) self.now.entries) i ≡ Some result }
        ensures from_one { 0 < result.var }
        ensures exists { result.var ≤ self.now.vars }
    {
        self.named.trail.at(i)
    }

    /// The last number of a clause of the order, by the code. No contract says more than that it is a
    /// number up to the last: a search asks for it only to choose what it decides.
    pub fn order_count(&self) -> u32
        ensures { result ≤ last_number self.now }
    {
        self.numbers.count()
    }

    /// The last number that was given to a clause.
    pub fn last_number(&self) -> u32
        ensures { result ≡ last_number self.now }
    {
        self.numbers.count() + self.places.len() as u32
    }

    /// Whether a live clause has the number.
    pub fn has_clause(&self, number: u32) -> bool
        ensures { IsTrue result ↔ IsSome (numbering_of self.now number) }
    {
        let first = self.numbers.count();
        if number <= first {
            return number > 0;
        }
        let index = (number - first - 1) as usize;
        if index >= self.places.len() {
            return false;
        }
        self.named.trail.has_clause(*self.places.at(index))
    }

    /// The live clause of the number.
    pub fn clause(&self, number: u32) -> LentClause<'_>
        requires { IsSome (numbering_of self.now number) }
        ensures { HasNumber (numbering_of self.now) number result }
    {
        let first = self.numbers.count();
        if number <= first {
            return LentClause::made(self.numbers.clause(number));
        }
        let place = *self.places.at((number - first - 1) as usize);
        LentClause::stored(self.named.trail.clause(place))
    }
}
