//! Four short uses of the crates as libraries, proved.
#![tactic(auto)]

mod formula;
mod log;
mod protocol;
mod store;

pub use formula::is_satisfiable;
pub use log::is_refuted;
pub use protocol::admitted_protocol;
pub use store::begun_store;
