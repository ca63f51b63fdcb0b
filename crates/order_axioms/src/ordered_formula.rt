ghost use Rattle.std.specs.Prelude.{◌++◌, All};
ghost use Rattle.clause_core.specs.Clause.{VariablesExist};
ghost use Rattle.order_axioms.specs.Order.{order_list};

use super::order::Order;
use clause_core::Formula;

/// A formula whose first clauses are those of an order. They are not stored.
#[derive(Drop)]
pub struct OrderedFormula {
    pub order: Order,
    /// The clauses after those of the order, over all variables.
    pub stored: Formula,
    pub ghost variables_exist: { All (VariablesExist stored.vars)
        (order_list order ++ stored.clauses) },
}
