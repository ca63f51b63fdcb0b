//! What pages are made of: fragments, a style, and the tables of a protocol.
#![tactic(auto)]

mod fragment;
mod laws;
mod messages;
mod names;
mod sources;
mod wording;

pub use fragment::{Fragment, fill, push_fragments};
pub use laws::{bytes_are_shown, marks_are_those_of_tags, templates_keep_their_marks};
pub use messages::push_messages;
pub use names::{is_key, param_name, role_name};
pub use sources::push_sources;
pub use wording::{STYLE, TABLE_END};
