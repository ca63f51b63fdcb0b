//! What a role knows under a key, and may emit.
#![tactic(auto)]

mod block;
mod emission;
mod knowledge;
mod laws;

pub use block::Block;
pub use emission::enabled;
pub use knowledge::knows;
pub use laws::answers_once;
