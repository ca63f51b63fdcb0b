//! Formulas in DIMACS form, read and decided.
#![tactic(auto)]

mod answer_text;
mod arguments;
mod call;
mod clauses;
mod count;
mod decision;
mod header;
mod laws;
mod lines;
mod refusal;
mod reply;
mod request;
mod status;
mod token;
mod verdict;
mod words;

pub use arguments::Options;
pub use call::run;
pub use decision::decide;
pub use laws::{formulas_are_as_written, stops_once};
pub use lines::formula_of;
pub use refusal::Refusal;
pub use reply::refused_line;
pub use request::Request;
pub use status::Status;
pub use verdict::Verdict;
