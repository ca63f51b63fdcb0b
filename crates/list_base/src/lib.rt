//! Lists, copies that may run out of memory, and lemmas.
#![tactic(auto)]

mod memory;
mod seq;

pub use memory::{NoMemory, TryClone};
pub use seq::Seq;

/// Bytes of a text.
pub type Bytes = Seq<u8>;

/// Numbers of 32 bits, in order.
pub type NumberList = Seq<u32>;
