ghost use Rattle.std.specs.Prelude.{OnOk};
ghost use Rattle.clause_encoding.specs.Families.{order_clauses};
ghost use Rattle.clause_encoding.specs.Ordered.{IsOrderOf};
ghost use Rattle.clause_encoding.specs.Variables.{IsSmall};
ghost use Rattle.clause_core.specs.Written.{AppendsClauses};

use super::variables::Variables;
use clause_core::ClauseList;
use list_base::NoMemory;
use order_axioms::{Order, OrderNumbers, cycle_clauses_ascend};
use std::alloc::Global;

/// The order of the kinds, whose variables are the last ones.
pub(crate) fn order_of(vars: Variables) -> Order
    requires { IsSmall vars }
    ensures { IsOrderOf vars result }
{
    Order {
        base: vars.order_base,
        kinds: vars.kinds,
    }
}

/// Appends the clauses that make "stands before" an order.
pub(crate) fn push_order(
    clauses: &mut ClauseList,
    alloc: Global,
    vars: Variables,
) -> Result<(), NoMemory>
    requires { IsSmall vars }
    ensures { OnOk result (AppendsClauses clauses.old clauses.new (order_clauses vars)) }
{
    // law: the literals of a clause that forbids a cycle ascend
    cycle_clauses_ascend();
    OrderNumbers::new(alloc, order_of(vars))?.push_all(clauses, alloc)
}
