//! All roles at play, on one thread or on many, until it settles.
#![tactic(auto)]

mod desk_history;
mod emissions;
mod inboxes;
mod joined_desks;
mod laws;
mod locks;
mod merged_run;
mod opened_desks;
mod pace;
mod role_lock;
mod rounds;
mod run;
mod shared;
mod steps;
mod table_value;
mod threads;
mod workers;
mod world;

pub use laws::{
    finished_stores_agree, kept_desks_merge, live_keys_are_bound, told_histories_explain,
};
pub use merged_run::merge;
pub use run::{run_one, settle};
pub use shared::Shared;
pub use table_value::table;
pub use threads::run_threads;
pub use workers::work;
pub use world::{DeskList, World};
