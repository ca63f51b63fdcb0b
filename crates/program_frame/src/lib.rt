//! The frame of a program: its arguments, and how it reads, answers and writes.
#![tactic(auto)]

mod arguments;
mod call;
mod ending;
mod laws;
mod prepared;
mod program;
mod reply;
mod standard;

pub use arguments::{args_after_name, args_given};
pub use call::serve;
pub use ending::{Ending, ExitStatus};
pub use laws::halves_are_calls;
pub use prepared::{Prepared, prepare};
pub use program::{Call, Program};
pub use reply::{Reply, write_reply};
pub use standard::answer;
