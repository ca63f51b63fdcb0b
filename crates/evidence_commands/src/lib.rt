//! The commands that judge evidence on a protocol: `check`, `check-dead`, `replay` and `audit`.
#![tactic(auto)]

mod audit_command;
mod check_command;
mod check_dead_command;
mod replay_command;
mod wording;

pub use audit_command::audit;
pub use check_command::check;
pub use check_dead_command::check_dead;
pub use replay_command::replay;
