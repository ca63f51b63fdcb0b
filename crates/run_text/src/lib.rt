//! The text of a run, both ways.
#![tactic(auto)]

mod event;
mod fields;
mod key;
mod laws;
mod reader;
mod refusal;
mod writer;

pub use event::event_of;
pub use laws::{events_are_fewer_than_bytes, events_are_lines, names_are_fields, reads_once};
pub use reader::read_run;
pub use refusal::RunRefusal;
pub use writer::write_run;
