//! The formula of a question on one enactment, which is exact both ways.
#![tactic(auto)]

mod asserted;
mod circuits;
mod emission;
mod formula;
mod joined;
mod kinds;
mod laws;
mod own_clauses;
mod plain;
mod precedence;
mod rest;

pub use circuits::question_circuit;
pub use formula::{QuestionFormulas, question_formula};
pub use kinds::kinds_of;
pub use laws::{
    condition_variables_exist, impossible_without_model, liveness_is_a_question,
    meeting_model_extends, model_meets_condition, model_run_answers_yes, possible_exactly_if_model,
    yes_exactly_if_met,
};
pub use plain::plain_question_formula;
