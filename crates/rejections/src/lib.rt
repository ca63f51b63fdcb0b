//! Why a part of the input is rejected, and the line of a log's first failure.
#![tactic(auto)]

mod failure_line;
mod part_rejection;

pub use failure_line::reject_line;
pub use part_rejection::{histories_rejection, log_rejection, run_rejection, script_rejection};
