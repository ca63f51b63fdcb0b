//! The safety and liveness formulas of a protocol.
#![tactic(auto)]

mod arrival;
mod base;
mod carrier_kinds;
mod clauses;
mod delivery;
mod exhaustion;
mod formula;
mod freshness;
mod kinds;
mod laws;
mod occurrence;
mod order;
mod parameters;
mod premises;
mod rest;
mod rivals;
mod selection;
mod shared;
mod unbound;
mod variables;
mod want;
mod wants;

pub use base::{kind_count, liveness_variables, plain_variables, safety_variables, variables_of};
pub use carrier_kinds::carriers;
pub use formula::{
    formula_of, liveness_formula, ordered_families, ordered_formula_of, safety_formula,
};
pub use kinds::{received, sent};
pub use laws::{
    carriers_are_kinds, clauses_are_as_many, clauses_are_determined, clauses_are_few,
    liveness_clauses_are_few, order_variables_exist, safety_clauses_are_few, variables_are_small,
    written_is_satisfied,
};
pub use parameters::{binds, public_values};
pub use rivals::{Rivals, rivals_of};
pub use variables::Variables;
pub use wants::{Want, wants_of};
