//! Proofs in LRAT form, which checkers of others read, from logs that are accepted.
#![tactic(auto)]

mod hints;
mod laws;
mod lines;
mod lit_set;
mod proof;

pub use laws::refuted_is_unsatisfiable;
pub use proof::lrat_proof;
