ghost use Rattle.std.specs.Prelude.{◌≡◌, IfOk, IfSome, IfNone};
ghost use Rattle.order_axioms.specs.Cycles.{IsNoPair, IsPair};
ghost use Rattle.order_propagator.specs.inner.Pairs.{positive};

use super::pair_table::pair_table;
use clause_core::Lit;
use list_base::NoMemory;
use order_axioms::{KindPair, Order};
use std::alloc::Global;
use std::marker::Model;

/// The pairs of kinds of which an order's variables are.
#[derive(Drop)]
pub struct KnownPairs {
    order: Order,
    /// The pairs of the variables from the first one of the order on.
    cells: Vec<KindPair>,
}

impl Model for KnownPairs {
    ghost use Rattle.order_axioms.specs.declared.order.Order.{Order};
    ghost use Rattle.order_propagator.specs.inner.Pairs.{ArePairs};

    ghost Value = { Order };

    ghost view = { λ p. p.order };

    ghost invariant = { λ p. ArePairs p.order p.cells.items };
}

impl KnownPairs {
    /// The pairs of the order.
    pub fn new(alloc: Global, order: Order) -> Result<KnownPairs, NoMemory>
        ensures { IfOk result (λ pairs. pairs ≡ order) }
    {
        Ok(KnownPairs {
            order,
            cells: pair_table(alloc, order)?,
        })
    }

    /// The order.
    pub fn order(&self) -> Order
        ensures { result ≡ self.now }
    {
        self.order
    }

    /// The two kinds of which the literal says that the first comes before the second, if there
    /// are such.
    pub fn pair(&self, lit: Lit) -> Option<KindPair>
        ensures some { IfSome result (IsPair self.now lit) }
        ensures none { IfNone result (IsNoPair self.now lit) }
    {
        match self.rising(lit.var) {
            Some(pair) if lit.positive => Some(pair),
            Some(pair) => Some(KindPair {
                first: pair.second,
                second: pair.first,
            }),
            None => None,
        }
    }

    /// The same for the literal of a variable.
    fn rising(&self, var: u32) -> Option<KindPair>
        ensures some { IfSome result (IsPair self.now (positive var)) }
        ensures none { IfNone result (IsNoPair self.now (positive var)) }
    {
        let lit = Lit {
            var,
            positive: true,
        };
        if var <= self.order.base {
            return self.order.pair(lit);
        }
        let index = (var - self.order.base - 1) as usize;
        if index >= self.cells.len() {
            return self.order.pair(lit);
        }
        Some(self.cells[index])
    }
}
