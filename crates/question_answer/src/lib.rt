//! Questions on one enactment, each answered by a run or by a proof that there is none.
#![tactic(auto)]

mod answer;
mod answering_run;
mod check;
mod common_question;
mod first_yes;
mod known_run;
mod laws;
mod question_search;
mod reader;
mod title;
mod writer;

pub use answer::Answer;
pub use check::check_question;
pub use laws::{
    question_log_fails_once, question_logs_written, question_steps_are_fewer_than_bytes,
    rests_read_once, titled_once,
};
pub use question_search::QuestionSearch;
pub use reader::read_titled_log;
pub use title::split_title;
pub use writer::write_question_log;
