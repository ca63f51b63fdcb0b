ghost use Rattle.std.specs.Prelude.{◌≡◌, ◌≢◌, ◌+◌, ◌^◌, ◌<◌, ◌↔◌, length, OnOk, IsOkUnless};
ghost use Rattle.clause_core.specs.Clause.{IsUnsatisfiable};
ghost use Rattle.order_axioms.specs.Formula.{whole};
ghost use Rattle.refutation_log.specs.Resolution.{Accepts};
ghost use Rattle.log_checker.specs.FirstFailure.{FailsFirst};

use super::derivation::derived_from;
use super::laws::accepted_is_unsatisfiable;
use super::refusal::Reject;
use clause_core::{Formula, resolvents_agree};
use order_axioms::{FormulaClauses, OrderedFormula};
use refutation_log::Log;
use std::alloc::Global;

/// Checks a log that anybody may have made: each step and each removal in the order of the
/// text, in a step each link in order, of a link its clause before its pivot, and in a removal each
/// number in order. The first failure is reported.
pub fn check_log(alloc: Global, f: &Formula, log: &Log) -> Result<(), Reject>
    requires { length f.now.clauses + length log.now.steps < 2 ^ 32 }
    ensures sound { OnOk result (IsUnsatisfiable f.now.clauses) }
    ensures ok { OnOk result (Accepts f.now log.now) }
    ensures accepts { Accepts f.now log.now → IsOkUnless result Reject.NoMemory }

    // Memory aside, the answer is exactly the first failure.
    ensures rejects { result ≢ Err Reject.NoMemory →
        (e : Reject) → ((result ≡ Err e) ↔ FailsFirst f.now log.now e) }
{
    // law: clauses have one resolvent on a pivot at most
    resolvents_agree();
    // law: no valuation satisfies a formula for which a log is accepted
    accepted_is_unsatisfiable();
    let clauses = FormulaClauses::plain(alloc, f)?;
    let _derived = derived_from(alloc, f.vars, clauses, log)?;
    Ok(())
}

/// The same check against a formula with an order, whose clauses are never stored.
pub fn check_ordered_log(alloc: Global, f: &OrderedFormula, log: &Log) -> Result<(), Reject>
    requires { length (whole f.now).clauses + length log.now.steps < 2 ^ 32 }
    ensures sound { OnOk result (IsUnsatisfiable (whole f.now).clauses) }
    ensures ok { OnOk result (Accepts (whole f.now) log.now) }
    ensures accepts { Accepts (whole f.now) log.now → IsOkUnless result Reject.NoMemory }

    // Memory aside, the answer is exactly the first failure.
    ensures rejects { result ≢ Err Reject.NoMemory →
        (e : Reject) → ((result ≡ Err e) ↔ FailsFirst (whole f.now) log.now e) }
{
    // law: clauses have one resolvent on a pivot at most
    resolvents_agree();
    // law: no valuation satisfies a formula for which a log is accepted
    accepted_is_unsatisfiable();
    let clauses = FormulaClauses::ordered(alloc, f)?;
    let _derived = derived_from(alloc, f.stored.vars, clauses, log)?;
    Ok(())
}
