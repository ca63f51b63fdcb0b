ghost use Rattle.std.specs.Prelude.{◌≡◌, ◌≢◌, ◌+◌, ◌^◌, ◌<◌, ◌↔◌, length};
ghost use Rattle.std.specs.Prelude.{IsOkUnless, OnOk};
ghost use Rattle.enactability.specs.Check.{AcceptsDead, FailsDead};
ghost use Rattle.enactability.specs.Enactable.{Enactable};
ghost use Rattle.enactability.specs.EnactFormula.{enact_clauses};

use super::formula::ordered_enact_formula;
use super::laws::no_model_is_dead;
use bspl_types::Admitted;
use clause_encoding::{clauses_are_as_many, clauses_are_determined};
use log_checker::{Reject, check_ordered_log, clauses_decide};
use refutation_log::Log;
use std::alloc::Global;

/// Checks a log, which anybody may have made, against the formula of the message. If it is
/// accepted, then no legal run emits the message.
pub fn check_dead(alloc: Global, a: &Admitted, message: u32, log: &Log) -> Result<(), Reject>
    requires known { message < length a.now.messages }
    requires few { length (enact_clauses a.now message) + length log.now.steps < 2 ^ 32 }
    ensures dead { OnOk result (¬ Enactable a.now message) }
    ensures ok { OnOk result (AcceptsDead a.now message log.now) }
    ensures accepts { AcceptsDead a.now message log.now → IsOkUnless result Reject.NoMemory }

    // Memory aside, the answer is exactly the first failure.
    ensures rejects { result ≢ Err Reject.NoMemory →
        (e : Reject) → ((result ≡ Err e) ↔ FailsDead a.now message log.now e) }
{
    // law: a formula without a model says that no legal run emits the message
    no_model_is_dead();
    // laws: what is written has one list of clauses, and a clause for each
    clauses_are_determined();
    clauses_are_as_many();
    // law: what a log does to a formula it does to each with the same clauses
    clauses_decide();
    let formula = ordered_enact_formula(alloc, a, message)?;
    check_ordered_log(alloc, &formula, log)
}
