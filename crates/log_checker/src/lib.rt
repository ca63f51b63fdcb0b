//! A checker of logs over any formula, which trusts nobody.
#![tactic(auto)]

mod chains;
mod checker;
mod clause_table;
mod derivation;
mod laws;
mod log_run;
mod lookup;
mod mark_table;
mod refusal;
mod removals;

pub use checker::{check_log, check_ordered_log};
pub use derivation::derived_clauses;
pub use laws::{accepted_is_unsatisfiable, clauses_decide, fails_once};
pub use refusal::Reject;
