use bspl_types::Run;
use refutation_log::Log;

/// Whether a protocol has a property, and why.
#[derive(Drop)]
pub enum Decision {
    /// The protocol has the property; the log, which was checked, refutes the property's formula.
    Proved(Log),
    /// The protocol does not have it; the run is legal and refutes the property.
    Refuted(Run),
    /// The search came to its budget; the log has the new clauses that it learned.
    Undecided(Log),
}

/// Whether a protocol is safe, and why.
#[derive(Drop)]
pub enum Safety {
    /// The protocol is safe; the log, which was checked, refutes its safety formula.
    Safe(Log),
    /// The protocol is not safe; the run is legal, and its last event is the second producer of its
    /// first conflict. Positions count from 1.
    Unsafe {
        run: Run,
        param: u32,
        first: usize,
        second: usize,
    },
    /// The search came to its budget; the log has the new clauses that it learned.
    Undecided(Log),
}

/// Whether a protocol is live, and why.
#[derive(Drop)]
pub enum Liveness {
    /// The protocol is live; the log, which was checked, refutes its liveness formula.
    Live(Log),
    /// The protocol is not live; the run is legal and is quiet, and the parameter is the
    /// first public one that it leaves unbound.
    NotLive { run: Run, param: u32 },
    /// The search came to its budget; the log has the new clauses that it learned.
    Undecided(Log),
}

/// The verdicts on a protocol.
#[derive(Drop)]
pub struct Verdicts {
    pub safety: Safety,
    pub liveness: Liveness,
}
