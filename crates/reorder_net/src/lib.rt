//! What a plan loses, the mailboxes between roles, and the inbox of a role.
#![tactic(auto)]

mod choice;
mod counts;
mod gathered;
mod hold;
mod inbox;
mod losses;
mod mailbox;
mod moves;
mod parcel;
mod passes;
mod post;
mod spares;
mod steps;
mod stock;

pub use choice::pick;
pub use inbox::Inbox;
pub use losses::{copies, lost};
pub use parcel::Parcel;
pub use passes::{Gathered, MailPass, PassList, RolePasses};
pub use post::{Mail, Post};
pub use spares::Spares;
