//! The commands that judge a protocol alone: `verify`, `expand` and `dead`.
#![tactic(auto)]

mod dead_command;
mod dead_text;
mod expand_command;
mod verify_command;
mod wording;

pub use dead_command::dead;
pub use expand_command::expand;
pub use verify_command::{VerdictReply, reply_with_verdicts, verify};
