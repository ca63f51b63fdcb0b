//! Distinct keys in order of adding, found by their order, and the order of events.
#![tactic(auto)]

mod laws;
mod order;
mod sorted_event;
mod sorted_key;
mod table;

pub use laws::{tied_events_are_one, tied_keys_are_one};
pub use sorted_event::SortedEvent;
pub use sorted_key::SortedKey;
pub use table::KeyTable;
