ghost use Rattle.std.specs.Prelude.{IfOk};
ghost use Rattle.clause_core.specs.Numbering.{HasNumber, numbered};
ghost use Rattle.order_axioms.specs.Order.{AreKinds, ForbidsCycle, order_list};

use clause_core::{Clause, equal_members};
use list_base::NoMemory;
use order_axioms::{Order, cycle_clauses_ascend};
use std::alloc::Global;

/// Makes the order's clause of the number, which forbids that `x` comes before `y`, `y` before `z`
/// and `z` before `x`. Its kinds are known, so they need not be found by the number.
pub fn cycle_clause(
    alloc: Global,
    order: Order,
    number: u32,
    x: u32,
    y: u32,
    z: u32,
) -> Result<Clause, NoMemory>
    requires kinds { AreKinds order x y z }
    requires forbids { ForbidsCycle order number x y z }
    ensures { IfOk result (HasNumber (numbered (order_list order)) number) }
{
    // law: clauses with the same literals are equal
    equal_members();
    // law: the literals of a clause that forbids a cycle ascend
    cycle_clauses_ascend();
    let lits = [
        order.comes_before(x, y).negation(),
        order.comes_before(y, z).negation(),
        order.comes_before(z, x).negation(),
    ];
    let clause = Clause::of(alloc, &lits)?;
    let _ascending = clause.lits();
    Ok(clause)
}
