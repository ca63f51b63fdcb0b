//! Clauses that say that a condition on literals is met.
#![tactic(auto)]

mod asserted;
mod circuit;
mod counts;
mod laws;
mod met;

pub use asserted::push_asserted;
pub use circuit::{Circuit, both, denied, either};
pub use counts::further_variables;
pub use laws::{asserted_is_met, denied_is_not_met, met_is_asserted, variables_are_further};
pub use met::is_met;
