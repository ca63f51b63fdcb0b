//! What an agents text means: its script and its plan.
#![tactic(auto)]

mod job;
mod laws;
mod plan;
mod refusal;
mod rules;
mod script;
mod statement;
mod values;

pub use job::{Agents, Job, Scene};
pub use laws::scripts_fit;
pub use plan::Plan;
pub use refusal::ScriptRefusal;
pub use rules::{Declined, ValueRule};
pub use script::Script;
pub use statement::{Rule, Setting, Stated, Statement};
