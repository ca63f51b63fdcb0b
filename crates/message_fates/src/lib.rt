//! What becomes of each message of a protocol: whether some legal run sends it.
#![tactic(auto)]

mod fate;
mod fates;
mod goals;
mod known;
mod laws;
mod param_sets;
mod play;
mod played_run;
mod reach;

pub use fate::Fate;
pub use fates::message_fates;
