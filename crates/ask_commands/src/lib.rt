//! The command `ask`: whether a question on one enactment is possible, whether a log refutes its
//! question, and whether a protocol keeps the rules in its text.
#![tactic(auto)]

mod answer_text;
mod arguments;
mod check_command;
mod command;
mod conflicts;
mod judged;
mod judgement;
mod laws;
mod misread;
mod options;
mod question_command;
mod question_log;
mod request;
mod rule_list;
mod rule_questions;
mod rules_command;
mod wording;

pub use check_command::check;
pub use command::{AskCommand, AskRequest};
pub use judgement::{is_broken, sense_word};
pub use laws::{asks_once, possibilities_are_true, rules_are_judged_truly};
pub use misread::{Misread, question_or_misread};
pub use options::AskOptions;
pub use question_command::{ask, asked};
pub use question_log::{QuestionLog, read_question_log};
pub use request::ask_request;
pub use rule_list::AskedRules;
pub use rule_questions::asked_rules;
pub use rules_command::judge;
