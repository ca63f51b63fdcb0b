//! Which arguments are a command line, and what they request.
#![tactic(auto)]

mod budget;
mod clap_args;
mod clap_matches;
mod command;
mod laws;
mod line;
mod number;
mod raw_args;
mod thread_count;
mod validation;

pub use budget::Budget;
pub use command::Command;
pub use laws::one_line;
pub use line::{CommandLine, Subject, command_line};
pub use thread_count::ThreadCount;
