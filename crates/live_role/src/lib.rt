//! A role that is played line by line, and its program.
#![tactic(auto)]

mod begun;
mod call;
mod journal_choice;
mod journal_head;
mod journal_refusal;
mod journals;
mod judged;
mod opening;
mod prepared;
mod reading;
mod request;
mod role_end;
mod same;

pub use call::bspl_role;
pub use journal_choice::RoleJournal;
pub use journals::Journals;
pub use role_end::{RoleEnd, RoleEnding};
