//! The trail: set literals, levels, reasons and unit propagation.
#![tactic(auto)]

mod clause_store;
mod entry;
mod examination;
mod flat_clauses;
mod packed_lit;
mod propagation;
mod propagation_step;
mod set_literals;
mod span;
mod trail;
mod trail_reading;
mod value;
mod watch;
mod watch_choice;
mod watch_lists;

pub use entry::Entry;
pub use trail::Trail;
