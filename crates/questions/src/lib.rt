//! Questions on one enactment, and their answers in a run.
#![tactic(auto)]

mod answer;
mod happening;
mod laws;
mod question;

pub use answer::is_yes;
pub use laws::{
    at_rest_is_quiet, conflict_is_a_question, dead_is_a_question, quiet_is_at_rest,
    safety_is_a_question, same_has_same_answer,
};
pub use question::{Happening, Question};
