ghost use Rattle.std.specs.Prelude.{◌<◌, ◌^◌, length, IfOk};
ghost use Rattle.library_uses.specs.Uses.{IsTrueAnswer};

use clause_core::Formula;
use list_base::NoMemory;
use log_checker::accepted_is_unsatisfiable;
use sat_solver::{Outcome, solve};
use std::alloc::Global;

/// Whether some assignment satisfies the formula, if 1,000 conflicts are enough to decide it.
pub fn is_satisfiable(alloc: Global, f: &Formula) -> Result<Option<bool>, NoMemory>
    requires { length f.now.clauses < 2 ^ 31 }
    ensures { IfOk result (IsTrueAnswer f.now) }
{
    // law: a formula of which a log is accepted is satisfied by no assignment
    accepted_is_unsatisfiable();
    match solve(alloc, f, 1000)? {
        Outcome::Sat(_) => Ok(Some(true)),
        Outcome::Unsat(_) => Ok(Some(false)),
        Outcome::Budget(_) => Ok(None),
    }
}
