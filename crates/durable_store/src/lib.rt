//! A role's store that keeps each event in a journal on a disk, and starts again from it.
#![tactic(auto)]

mod crash;
mod durable;
mod emission;
mod laws;
mod next_event;
mod places;
mod reception;
mod refusals;
mod restart;
mod restoring;
mod start;

pub use crash::crash_is_restored;
pub use durable::DurableStore;
pub use laws::{histories_are_native, journals_are_one};
pub use refusals::{EmitRefusal, ReceiveRefusal, StartRefusal};
