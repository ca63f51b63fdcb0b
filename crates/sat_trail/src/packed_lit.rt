ghost use Rattle.std.specs.Prelude.{◌≡◌, ◌^◌, ◌<◌, ◌↔◌, IsTrue};
ghost use Rattle.clause_core.specs.Literal.{rank};

use clause_core::Lit;
use std::marker::Model;

/// A literal of a variable below 2^31, in four bytes: its rank.
#[derive(Clone, Copy, Debug)]
pub struct PackedLit {
    number: u32,
}

impl Model for PackedLit {
    ghost use Rattle.clause_core.specs.declared.literal.Lit.{Lit};
    ghost use Rattle.clause_core.specs.Literal.{rank};
    ghost use Rattle.std.proofs.Common.{ap};
    ghost use Rattle.sat_trail.specs.inner.Packed.{lit_of, rank_again};

    ghost Value = { Lit };

    ghost view = { λ p. lit_of p.number };

    ghost inverse = { λ l. record { number = rank l } };

    ghost inverse_ok = { λ p _. ap (λ n. record { number = n }) (rank_again p.number) };
}

impl PackedLit {
    /// The literal in four bytes.
    pub fn of(lit: Lit) -> PackedLit
        requires { lit.var < 2 ^ 31 }
        ensures { result ≡ lit }
    {
        PackedLit {
            number: 2 * lit.var + u32::from(lit.positive),
        }
    }

    /// The literal as clauses have it.
    pub fn lit(self) -> Lit
        ensures { result ≡ self }
    {
        Lit {
            var: self.number / 2,
            positive: self.number % 2 == 1,
        }
    }

    /// The literal's index in a list with one item for each literal.
    pub fn rank(self) -> usize
        ensures { result ≡ rank self }
    {
        self.number as usize
    }

    /// Whether both are one literal.
    pub fn is(self, other: PackedLit) -> bool
        ensures { IsTrue result ↔ (self ≡ other) }
    {
        self.number == other.number
    }
}
