//! A disk that may fail and crash, and the journal of a role on it.
#![tactic(auto)]

mod body;
mod disk;
mod entry;
mod instance;
mod journal;
mod laws;
mod memory;
mod recording;
mod stop;

pub use disk::Disk;
pub use entry::entry_of;
pub use instance::instance_with;
pub use journal::{append, count_places, is_open, read_body};
pub use laws::{bodies_are_distinct, bodies_are_whole, fitting_instances_are_one};
pub use memory::MemDisk;
pub use recording::Call;
pub use stop::StopDisk;
