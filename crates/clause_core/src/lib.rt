//! Clauses, assignments and resolution over numbered variables.
#![tactic(auto)]

mod assignment;
mod clause;
mod distinct;
mod formula;
mod laws;
mod literal;
mod merge;
mod resolution;
mod written;

pub use assignment::Assignment;
pub use clause::{Clause, ClauseList};
pub use formula::Formula;
pub use laws::{equal_members, lists_have_clauses, resolvents_agree, resolvents_follow};
pub use literal::{Lit, positive};
pub use resolution::{ResolveRefusal, resolve};
pub use written::push_clause;
