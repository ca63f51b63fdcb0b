//! Worlds whose roles are restarted: which steps may happen, that they make a legal run, and a job
//! that is played over disks that may fail.
#![tactic(auto)]

mod disks;
mod entries;
mod keeper;
mod kept_world;
mod keys;
mod laws;
mod refusal;
mod roles;
mod run;
mod size;
mod start;

pub use disks::stop_disks;
pub use laws::restarts_are_legal;
pub use refusal::RestartRefusal;
pub use roles::DiskList;
pub use run::{Restarted, run_restarts};
pub use size::bytes_for;
