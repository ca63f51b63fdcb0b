//! Clauses that say that "comes before" is an order, by number and without being stored.
#![tactic(auto)]

mod formula_clauses;
mod kind_pair;
mod laws;
mod lent_clause;
mod order;
mod order_numbers;
mod ordered_formula;
mod starts;

pub use formula_clauses::{FormulaClauses, any_empty};
pub use kind_pair::KindPair;
pub use laws::{clauses_forbid_cycles, cycle_clauses_ascend, cycles_are_forbidden};
pub use lent_clause::LentClause;
pub use order::Order;
pub use order_numbers::OrderNumbers;
pub use ordered_formula::OrderedFormula;
