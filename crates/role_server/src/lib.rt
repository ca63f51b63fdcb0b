//! A role that answers lines of JSON over its store.
#![tactic(auto)]

mod answer;
mod laws;
mod live;
mod live_act;
mod live_laws;
mod live_reply;
mod refusal;
mod reply;
mod served_role;
mod stream;

pub use answer::answer_line;
pub use laws::replies_are_determined;
pub use live::LiveRole;
pub use live_laws::live_replies_are_determined;
pub use refusal::ServeRefusal;
pub use reply::push_told;
pub use stream::{serve, serve_from, store_with_room};
