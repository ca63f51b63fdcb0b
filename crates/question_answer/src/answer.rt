use bspl_types::Run;
use refutation_log::Log;

/// Whether a question is possible, and why.
#[derive(Drop)]
pub enum Answer {
    /// The run is legal, and the answer is yes at its end, and not before, under the key of ones.
    Possible(Run),
    /// No legal run gives the answer yes; the log, which was checked, refutes the question's
    /// formula.
    Impossible(Log),
    /// The search came to its budget; the log has the new clauses that it learned.
    Undecided(Log),
}
