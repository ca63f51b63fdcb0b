//! A role's store: its history, keys and knowledge.
#![tactic(auto)]

mod act;
mod acts;
mod append;
mod block;
mod bound_cells;
mod cells;
mod difference;
mod emission;
mod filled_values;
mod grid;
mod history;
mod knowledge;
mod laws;
mod lookup;
mod next_entry;
mod receipt;
mod reception;
mod row_values;
mod store;

pub use act::Kind;
pub use laws::next_stays_local;
pub use receipt::Receipt;
pub use store::Store;
