//! The page of a protocol: the verdicts on it, its rules, its dead messages, and a run or a world
//! that is given.
#![tactic(auto)]

mod fates;
mod laws;
mod page;
mod played;
mod rules;
mod run;
mod run_verdict;
mod run_words;
mod verdicts;
mod wording;
mod world;
mod world_counts;
mod world_values;

pub use laws::{reports_are_shown, rules_are_shown_truly};
pub use page::page_text;
pub use played::push_played;
pub use rules::push_rules;
pub use run::push_run;
pub use run_verdict::RunVerdict;
pub use world::{push_unplayed, push_world};
