//! The texts of verdicts, replays, worlds and audits.
#![tactic(auto)]

mod audit;
mod count;
mod exit_status;
mod fields;
mod keys;
mod laws;
mod replay;
mod replay_lines;
mod row_lines;
mod status;
mod summary;
mod verdict_lines;
mod world;
mod world_counts;
mod world_known;
mod world_messages;
mod world_rows;
mod world_totals;

pub use audit::{bad_place_text, consistent_text, cycle_text};
pub use count::Count;
pub use exit_status::verdict_status;
pub use laws::{replay_is_once, right_runs_fit};
pub use replay::{Replay, replay_text};
pub use status::Status;
pub use summary::{generated_text, summary_text};
pub use verdict_lines::verdict_text;
pub use world::world_text;
pub use world_counts::message_counts;
pub use world_rows::{RowWriter, push_rows};
