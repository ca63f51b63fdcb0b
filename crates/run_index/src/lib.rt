//! The questions on a run, answered in time that grows with its length and little more.
#![tactic(auto)]

mod conflicts;
mod demand;
mod enablement;
mod facts;
mod failures;
mod index;
mod legality;
mod permission;
mod rest;

pub use conflicts::producers;
pub use enablement::first_disabled;
pub use index::RunIndex;
pub use legality::legal;
pub use rest::{quiet, unbound};
