ghost use Rattle.std.specs.Prelude.{◌≡◌, ◌≢◌, ◌+◌, ◌^◌, ◌<◌, ◌↔◌, length, All, IfErr, IfOk, IsOkUnless};
ghost use Rattle.clause_core.specs.Clause.{VariablesExist};
ghost use Rattle.refutation_log.specs.Resolution.{Accepts};
ghost use Rattle.log_checker.specs.Derivation.{IsAcceptedWith};
ghost use Rattle.log_checker.specs.FirstFailure.{FailsFirst};
ghost use Rattle.log_checker.specs.inner.Stops.{AcceptsClausesWith, ClausesStop};

use super::log_run::run_log;
use super::refusal::Reject;
use clause_core::{ClauseList, Formula, resolvents_agree};
use order_axioms::FormulaClauses;
use refutation_log::Log;
use std::alloc::Global;

/// The clauses that the steps of an accepted log derive, in order. Any other log is rejected as
/// `check_log` rejects it.
pub fn derived_clauses(alloc: Global, f: &Formula, log: &Log) -> Result<ClauseList, Reject>
    requires { length f.now.clauses + length log.now.steps < 2 ^ 32 }
    ensures ok { IfOk result (IsAcceptedWith f.now log.now) }
    ensures accepts { Accepts f.now log.now → IsOkUnless result Reject.NoMemory }

    // Memory aside, the answer is exactly the first failure.
    ensures rejects { result ≢ Err Reject.NoMemory →
        (e : Reject) → ((result ≡ Err e) ↔ FailsFirst f.now log.now e) }
{
    // law: clauses have one resolvent on a pivot at most
    resolvents_agree();
    derived_from(alloc, f.vars, FormulaClauses::plain(alloc, f)?, log)
}

/// The same over a formula's clauses; each answer comes only for its cause.
pub fn derived_from(
    alloc: Global,
    vars: u32,
    clauses: FormulaClauses<'_>,
    log: &Log,
) -> Result<ClauseList, Reject>
    requires few { length clauses + length log.now.steps < 2 ^ 32 }
    requires exist { All (VariablesExist vars) clauses }
    ensures ok { IfOk result (AcceptsClausesWith clauses.entry log.now) }
    ensures err { IfErr result (ClausesStop clauses.entry log.now) }
{
    let table = run_log(alloc, vars, clauses, log)?;
    if table.has_empty() {
        Ok(table.into_derived())
    } else {
        Err(Reject::NotEmpty)
    }
}
