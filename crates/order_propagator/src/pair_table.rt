ghost use Rattle.std.specs.Prelude.{◌≡◌, ◌+◌, ◌<◌, length, IfOk, OnOk};
ghost use Rattle.order_axioms.specs.Order.{pair_variable};
ghost use Rattle.order_propagator.specs.inner.Pairs.{ArePairs};

use list_base::NoMemory;
use order_axioms::{KindPair, Order};
use std::alloc::Global;

/// The pairs of the order's variables, in the order of the variables.
pub fn pair_table(alloc: Global, order: Order) -> Result<Vec<KindPair>, NoMemory>
    ensures { IfOk result (λ pairs. ArePairs order pairs.items) }
{
    let mut pairs = Vec::new(alloc);
    for first in 1..order.kinds {
        push_pairs(&mut pairs, order, first)?;
    }
    Ok(pairs)
}

/// Appends those of a kind with each later one.
fn push_pairs(pairs: &mut Vec<KindPair>, order: Order, first: u32) -> Result<(), NoMemory>
    requires from_one { 0 < first }
    requires below { first < order.kinds }
    requires pairs { ArePairs order pairs.old.items }
    requires next { let after = first + 1 in
        order.base + length pairs.old.items + 1 ≡ pair_variable order first after }
    ensures pairs { OnOk result (ArePairs order pairs.new.items) }
    ensures next { let after = first + 1 in OnOk result
        (order.base + length pairs.new.items + 1 ≡ pair_variable order after (after + 1)) }
{
    for second in first + 1..order.kinds + 1 {
        pairs.push(KindPair { first, second })?;
    }
    Ok(())
}
