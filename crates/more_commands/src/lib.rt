//! More commands on a protocol: questions and rules on one enactment, its formula, a proof in LRAT
//! form, a page of it, and answers in words.
#![tactic(auto)]

mod arguments;
mod ask_words;
mod call;
mod command;
mod explain_ask;
mod explain_command;
mod formula_arguments;
mod formula_command;
mod given_sections;
mod laws;
mod lrat_command;
mod page_command;
mod pages;
mod question;
mod status_words;
mod word;
mod wording;

pub use call::bspl_more;
pub use command::MoreCommand;
pub use explain_ask::explain_asked;
pub use explain_command::{explain, explained_verdicts};
pub use formula_arguments::FormulaArgs;
pub use formula_command::formula;
pub use laws::{
    answers_add_words, answers_are_true, done_answers_are_true, done_pages_are_true, one_output,
    rules_are_answered_truly,
};
pub use lrat_command::{log_answer, lrat, question_log_answer};
pub use page_command::page;
pub use pages::{page_answer, page_with_agents, page_with_run};
pub use question::MoreQuestion;
