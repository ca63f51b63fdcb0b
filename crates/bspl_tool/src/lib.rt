//! The whole tool as one call over streams.
#![tactic(auto)]

mod call;
mod laws;
mod question;
mod standard;
mod task;
mod wording;

pub use call::{bspl, bspl_alone};
pub use laws::answers_are_distinct;
pub use question::ToolQuestion;
pub use standard::answer;
pub use task::Task;
