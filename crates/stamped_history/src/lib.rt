//! Stamped histories, the run they merge into, and played runs.
#![tactic(auto)]

mod cursor;
mod entry;
mod history;
mod laws;
mod merge;

pub use entry::{Entry, RoleEntry};
pub use history::History;
pub use laws::{
    extended_stay_explained, histories_merge, histories_play, histories_settle, local_stamps_rise,
    merged_runs_are_one, played_grows, stores_agree,
};
pub use merge::merge_histories;
