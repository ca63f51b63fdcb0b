//! Byte sources and sinks; texts read or written whole.
#![tactic(auto)]

mod memory;
mod plain;
mod schedule;
mod sink;
mod source;
mod standard;

pub use memory::{MemSink, MemSource};
pub use plain::{PlainSink, PlainSource};
pub use sink::{Sink, Trouble, WriteRefusal, write_all};
pub use source::{Failed, ReadRefusal, Source, read_all};
pub use standard::{StdSink, StdSource};
