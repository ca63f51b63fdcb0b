//! Dead messages: which messages some legal run emits, each answer with its evidence.
#![tactic(auto)]

mod check;
mod cut;
mod enact_search;
mod formula;
mod laws;
mod outcome;
mod plain;
mod reader;
mod title;
mod writer;

pub use check::check_dead;
pub use enact_search::{EnactSearch, enactable};
pub use laws::{
    dead_exactly_if_no_model, dead_log_fails_once, dead_steps_are_fewer_than_bytes,
    dead_texts_read_once, dead_texts_written, enact_clauses_are_few, model_enacts,
    no_model_is_dead,
};
pub use outcome::Enact;
pub use plain::enact_formula;
pub use reader::read_dead;
pub use writer::write_dead;
