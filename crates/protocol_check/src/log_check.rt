ghost use Rattle.std.specs.Prelude.{◌≡◌, ◌≢◌, ◌+◌, ◌^◌, ◌<◌, ◌↔◌, length, IsOkUnless, OnOk};
ghost use Rattle.clause_encoding.specs.Formula.{clauses_of, liveness_clauses, safety_clauses};
ghost use Rattle.enactment_model.specs.Liveness.{LiveProtocol};
ghost use Rattle.enactment_model.specs.Property.{Holds};
ghost use Rattle.enactment_model.specs.Safety.{SafeProtocol};
ghost use Rattle.protocol_check.specs.Check.{AcceptsLiveness, AcceptsLog, AcceptsSafety};
ghost use Rattle.protocol_check.specs.Check.{FailsLiveness, FailsLog, FailsSafety};

use bspl_types::{Admitted, Property};
use clause_encoding::{clauses_are_as_many, clauses_are_determined, ordered_formula_of};
use first_occurrences::unsatisfiable_holds;
use log_checker::{Reject, check_ordered_log, clauses_decide};
use refutation_log::Log;
use std::alloc::Global;

/// Checks a log, which anybody may have made, against the formula of the protocol and the property.
/// If it is accepted, then the protocol has the property.
pub fn check(alloc: Global, property: Property, a: &Admitted, log: &Log) -> Result<(), Reject>
    requires { length (clauses_of property a.now) + length log.now.steps < 2 ^ 32 }
    ensures holds { OnOk result (Holds property a.now) }
    ensures ok { OnOk result (AcceptsLog property a.now log.now) }
    ensures accepts { AcceptsLog property a.now log.now → IsOkUnless result Reject.NoMemory }

    // Memory aside, the answer is exactly the first failure.
    ensures rejects { result ≢ Err Reject.NoMemory →
        (e : Reject) → ((result ≡ Err e) ↔ FailsLog property a.now log.now e) }
{
    // law: a protocol has a property if the formula of both has no model
    unsatisfiable_holds();
    // laws: what is written has one list of clauses, and a clause for each
    clauses_are_determined();
    clauses_are_as_many();
    // law: what a log does to a formula it does to each with the same clauses
    clauses_decide();
    // law: what was admitted is admitted
    a.is_admitted();
    let formula = ordered_formula_of(alloc, property, a)?;
    check_ordered_log(alloc, &formula, log)
}

/// Checks a log against the safety formula of the protocol. If it is accepted, then the protocol is
/// safe in every legal run.
pub fn check_safety(alloc: Global, a: &Admitted, log: &Log) -> Result<(), Reject>
    requires { length (safety_clauses a.now) + length log.now.steps < 2 ^ 32 }
    ensures safe { OnOk result (SafeProtocol a.now) }
    ensures ok { OnOk result (AcceptsSafety a.now log.now) }
    ensures accepts { AcceptsSafety a.now log.now → IsOkUnless result Reject.NoMemory }

    // Memory aside, the answer is exactly the first failure.
    ensures rejects { result ≢ Err Reject.NoMemory →
        (e : Reject) → ((result ≡ Err e) ↔ FailsSafety a.now log.now e) }
{
    check(alloc, Property::Safety, a, log)
}

/// Checks a log against the liveness formula of the protocol. If it is accepted, then at each key
/// at which a legal run is quiet, what is public is bound.
pub fn check_liveness(alloc: Global, a: &Admitted, log: &Log) -> Result<(), Reject>
    requires { length (liveness_clauses a.now) + length log.now.steps < 2 ^ 32 }
    ensures live { OnOk result (LiveProtocol a.now) }
    ensures ok { OnOk result (AcceptsLiveness a.now log.now) }
    ensures accepts { AcceptsLiveness a.now log.now → IsOkUnless result Reject.NoMemory }

    // Memory aside, the answer is exactly the first failure.
    ensures rejects { result ≢ Err Reject.NoMemory →
        (e : Reject) → ((result ≡ Err e) ↔ FailsLiveness a.now log.now e) }
{
    check(alloc, Property::Liveness, a, log)
}
