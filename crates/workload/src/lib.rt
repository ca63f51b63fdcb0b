//! Texts of protocols and their agents, each made from a number.
#![tactic(auto)]

mod stage;

pub use stage::generate;
