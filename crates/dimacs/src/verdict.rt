use super::status::Status;
use clause_core::Assignment;
use list_base::Bytes;
use sat_solver::SearchStats;

/// What is known of a formula, and how much was done for it.
#[derive(Drop)]
pub enum Verdict {
    /// This assignment satisfies it.
    Satisfiable {
        assignment: Assignment,
        stats: SearchStats,
    },
    /// No assignment satisfies it, as a checked log shows.
    Unsatisfiable {
        stats: SearchStats,
    },
    /// No assignment satisfies it, as this proof in LRAT form shows.
    Proved {
        proof: Bytes,
    },
    /// The allowed conflicts were not enough.
    Unknown {
        stats: SearchStats,
    },
}

impl Verdict {
    ghost use Rattle.std.specs.Prelude.{◌≡◌};
    ghost use Rattle.dimacs.specs.Status.{solver_status};

    /// The status of a call that writes it.
    pub fn status(&self) -> Status
        ensures { result ≡ solver_status self.now }
    {
        match self {
            Verdict::Satisfiable { .. } => Status::Satisfiable,
            Verdict::Unsatisfiable { .. } | Verdict::Proved { .. } => Status::Unsatisfiable,
            Verdict::Unknown { .. } => Status::Unknown,
        }
    }
}
