//! A solver that learns clauses, and logs what it learned.
#![tactic(auto)]

mod analysis;
mod choice;
mod completion;
mod conflict;
mod decision_rule;
mod false_lits;
mod given_formula;
mod implication;
mod kind_places;
mod learner;
mod lit_set;
mod model;
mod outcome;
mod recent_clause;
mod search;
mod search_stats;
mod solver;
mod var_marks;
mod variable_queue;

pub use outcome::Outcome;
pub use search_stats::SearchStats;
pub use solver::{solve, solve_counted, solve_ordered};
