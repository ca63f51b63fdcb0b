//! Logs checked against a protocol's formula prove its property.
#![tactic(auto)]

mod kind;
mod laws;
mod log_check;

pub use kind::property_of;
pub use laws::{liveness_fails_once, log_fails_once, safety_fails_once, written_log_is_accepted};
pub use log_check::{check, check_liveness, check_safety};
