//! Answers in words: what a refusal or a verdict means, where, and what to do about it.
#![tactic(auto)]

mod arity;
mod byte_advice;
mod choices;
mod detail;
mod distance;
mod exclusion;
mod fault;
mod laws;
mod lent_naming;
mod limit_text;
mod liveness;
mod meant;
mod messages;
mod names;
mod namings;
mod near_names;
mod part_lines;
mod place;
mod producers;
mod refusal;
mod refused_place;
mod safety;
mod script_rule;
mod sentences;
mod uses;
mod verdict_text;
mod ways;
mod wording;

pub use laws::{named_events_clash, producers_are_blocked};
pub use near_names::{nearest, nearest_line};
pub use place::{Place, line_of, place_of};
pub use refusal::refusal_text;
pub use verdict_text::verdict_words;
