//! Logs of resolution with removals, and their texts.
#![tactic(auto)]

mod body;
mod drops;
mod due;
mod header;
mod laws;
mod line_error;
mod log_cursor;
mod log_entries;
mod numbers;
mod reader;
mod refusal;
mod refutation;
mod steps;
mod writer;

pub use laws::{
    entries_append, new_clause_appends, new_clauses_are_irredundant, new_resolves, plain_resolves,
    reads_once, step_appends, steps_are_counted, steps_are_fewer_than_bytes, steps_have_lines,
    writes_texts,
};
pub use line_error::LineError;
pub use log_cursor::{Entries, EntryRef};
pub use numbers::pivot_of;
pub use reader::{read_entries, read_log};
pub use refusal::LogRefusal;
pub use refutation::{
    Chain, ChainList, Entry, Kind, Link, LinkList, Log, Removal, RemovalList, Version,
};
pub use writer::{push_entries, push_pivot, write_log};
