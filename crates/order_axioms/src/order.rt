ghost use Rattle.std.specs.Prelude.{◌≤◌};

use clause_core::Lit;

/// A strict order of the kinds from 1 to `kinds`. For each two of them a variable says whether the
/// first comes before the second. These variables follow `base`, in lexicographic order of the
/// pairs.
#[derive(Clone, Copy, Debug)]
pub struct Order {
    pub base: u32,
    pub kinds: u32,
    pub ghost few_others: { base ≤ 1048576 },
    pub ghost few_kinds: { kinds ≤ 128 },
}

impl Order {
    ghost use Rattle.std.specs.Prelude.{◌≡◌, ◌<◌};
    ghost use Rattle.order_axioms.specs.Order.{AreRising, AreTwoKinds, comes_before};
    ghost use Rattle.order_axioms.specs.Order.{cycle_clause, pair_variable};

    /// No kinds, and no variables of pairs.
    pub fn none() -> Order
        ensures base { result.base ≡ 0 }
        ensures kinds { result.kinds ≡ 0 }
    {
        Order { base: 0, kinds: 0 }
    }

    /// The clause that forbids a cycle of three kinds, by its literals in ascending order.
    pub fn cycle_clause(self, backward: bool, i: u32, j: u32, k: u32) -> [Lit; 3]
        requires { AreRising self i j k }
        ensures { result ≡ cycle_clause self backward i j k }
    {
        [
            self.lit(backward, i, j),
            self.lit(!backward, i, k),
            self.lit(backward, j, k),
        ]
    }

    /// The literal that says that kind `x` comes before kind `y`.
    pub fn comes_before(self, x: u32, y: u32) -> Lit
        requires { AreTwoKinds self x y }
        ensures { result ≡ comes_before self x y }
    {
        if x < y {
            self.lit(true, x, y)
        } else {
            self.lit(false, y, x)
        }
    }

    /// The literal of the variable that says whether kind `i` comes before the later kind `j`.
    fn lit(self, positive: bool, i: u32, j: u32) -> Lit
        requires from_one { 0 < i }
        requires rising { i < j }
        requires within { j ≤ self.kinds }
        ensures { result ≡ record { var = pair_variable self i j; positive = positive } }
    {
        Lit {
            var: self.base + (i - 1) * self.kinds - i * (i - 1) / 2 + (j - i),
            positive,
        }
    }
}
