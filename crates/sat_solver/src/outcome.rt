use clause_core::Assignment;
use refutation_log::Log;

/// What a solver found out about a formula.
#[derive(Drop)]
pub enum Outcome {
    /// An assignment of exactly the formula's variables that satisfies all clauses.
    Sat(Assignment),
    /// A log that refutes the formula, without steps and removals if a clause of it is empty.
    Unsat(Log),
    /// A log of as many new clauses as the budget allows.
    Budget(Log),
}
