use super::order::Order;
use clause_core::Lit;

/// Two kinds, of which the first comes before the second.
#[derive(Clone, Copy, Debug)]
pub struct KindPair {
    pub first: u32,
    pub second: u32,
}

impl Order {
    ghost use Rattle.std.specs.Prelude.{IfNone, IfSome};
    ghost use Rattle.order_axioms.specs.Cycles.{IsNoPair, IsPair};
    ghost use Rattle.order_axioms.specs.inner.Pair.{IsOfNone, IsVariableOf};

    /// The two kinds of which the literal says that the first comes before the second, if there are
    /// such.
    pub fn pair(self, lit: Lit) -> Option<KindPair>
        ensures some { IfSome result (IsPair self lit) }
        ensures none { IfNone result (IsNoPair self lit) }
    {
        match self.kinds_of(lit.var) {
            Some(kinds) if lit.positive => Some(kinds),
            Some(kinds) => Some(KindPair {
                first: kinds.second,
                second: kinds.first,
            }),
            None => None,
        }
    }

    /// The two kinds of a variable, the lower one first, if it is of two.
    fn kinds_of(self, var: u32) -> Option<KindPair>
        ensures some { IfSome result (IsVariableOf self var) }
        ensures none { IfNone result (IsOfNone self var) }
    {
        if var <= self.base {
            return None;
        }
        let mut rest = var - self.base - 1;
        for first in 1..self.kinds {
            let later = self.kinds - first;
            if rest < later {
                return Some(KindPair {
                    first,
                    second: first + 1 + rest,
                });
            }
            rest -= later;
        }
        None
    }
}
