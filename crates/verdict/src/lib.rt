//! Safe, live or not, each with its evidence.
#![tactic(auto)]

mod decision;
mod laws;
mod outcome;
mod search;
mod verdicts;

pub use decision::decide;
pub use laws::numbers_in_range;
pub use outcome::{Decision, Liveness, Safety, Verdicts};
pub use search::search_model;
pub use verdicts::verify;
