//! A protocol's formula in DIMACS form, with what its variables mean.
#![tactic(auto)]

mod asked;
mod asked_laws;
mod asked_legend;
mod kinds;
mod laws;
mod legend;
mod lines;
mod meaning;
mod rest;
mod text;

pub use asked::question_formula_text;
pub use asked_laws::{
    names_each_question_variable, one_question_text, question_reads_back, same_has_same_formula,
};
pub use laws::{names_each_variable, one_text, reads_back};
pub use text::{enact_formula_text, formula_text};
