//! Logs on formulas in DIMACS form, checked, and their program.
#![tactic(auto)]

mod answer;
mod call;
mod laws;
mod reply;
mod request;

pub use answer::log_answer;
pub use call::dimacs_check;
pub use laws::accepted_has_no_model;
pub use request::Request;
