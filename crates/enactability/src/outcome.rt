use bspl_types::Run;
use refutation_log::Log;

/// Whether a protocol can enact a message, and why.
#[derive(Drop)]
pub enum Enact {
    /// The run is legal and ends with the message, which it emits there for the first time.
    Enacted(Run),
    /// No legal run emits the message; the log, which was checked, refutes the formula of it.
    Dead(Log),
    /// The search came to its budget; the log has the new clauses that it learned.
    Undecided(Log),
}
