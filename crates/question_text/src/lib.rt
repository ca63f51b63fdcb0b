//! Questions as they are written: their words, their grammar and their spelling, and what they ask
//! of a protocol.
#![tactic(auto)]

mod asked;
mod fault;
mod keyword;
mod laws;
mod meaning_laws;
mod part;
mod pending;
mod reader;
mod reading;
mod spelling;
mod step;
mod tree;
mod unknown;

pub use asked::question_of;
pub use fault::QuestionFault;
pub use laws::{one_question, spelling_reads_back};
pub use meaning_laws::{asked_of_the_protocol, means_once};
pub use reader::read_question;
pub use spelling::write_spelling;
pub use tree::{Said, Tree};
pub use unknown::UnknownName;
