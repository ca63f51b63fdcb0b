ghost use Rattle.std.specs.Prelude.{◌≡◌, ℕ, Bool, ◌↔◌};
ghost use Rattle.clause_core.specs.Literal.{rank, negated, positive, MakesTrue};

use list_base::{NoMemory, TryClone};
use smallvec::SmallVec;

/// Literals, in order. Up to three of them take no memory of their own.
pub(crate) type Lits = SmallVec<Lit, 3>;

/// A variable, counted from 1, or its negation.
#[derive(Clone, Copy, Debug, Default, PartialEq, Eq)]
pub struct Lit {
    pub var: u32,
    pub positive: bool,
}

impl Lit {
    /// The literal that is true exactly if this one is false.
    pub fn negation(self) -> Lit
        ensures exact { result ≡ negated self }
        ensures opposite { (v : ℕ → Bool) → MakesTrue v result ↔ ¬ MakesTrue v self }
    {
        Lit {
            var: self.var,
            positive: !self.positive,
        }
    }

    /// The number by which clauses order their literals.
    pub fn rank(self) -> u64
        ensures { result ≡ rank self }
    {
        2 * u64::from(self.var) + u64::from(self.positive)
    }
}

impl TryClone for Lit {
    fn try_clone(&self) -> Result<Lit, NoMemory> {
        Ok(*self)
    }
}

/// The literal that is true where the variable is.
pub fn positive(var: u32) -> Lit
    ensures { result ≡ positive var }
{
    Lit {
        var,
        positive: true,
    }
}
