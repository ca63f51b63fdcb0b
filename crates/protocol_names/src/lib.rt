//! The names of a document, and its first fault.
#![tactic(auto)]

mod declared_names;
mod document;
mod fault;
mod fault_order;
mod items;
mod laws;
mod name_table;
mod names;
mod number;
mod params;
mod protocol_table;
mod references;

pub use document::first_fault;
pub use fault::{DocumentFault, FaultKind};
pub use laws::{faults_have_causes, names_find_protocols};
pub use name_table::NameTable;
pub use protocol_table::ProtocolTable;
