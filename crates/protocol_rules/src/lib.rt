//! The rules that stand beside the messages of a protocol, in comments of its text.
#![tactic(auto)]

mod braces;
mod fault;
mod laws;
mod rule;
mod rule_line;
mod rules;

pub use fault::RuleFault;
pub use laws::rules_once;
pub use rule::{Rule, Sense};
pub use rules::read_rules;
