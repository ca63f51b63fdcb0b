ghost use Rattle.std.specs.Prelude.{◌≡◌, ◌≢◌, ◌≤◌, ◌↔◌, length, IsOkUnless, OnOk};
ghost use Rattle.questions.specs.Answer.{IsPossible};
ghost use Rattle.questions.specs.Subject.{IsAbout};
ghost use Rattle.question_answer.specs.Check.{AcceptsImpossible, FailsImpossible};

use bspl_types::Admitted;
use clause_encoding::clauses_are_determined;
use log_checker::{Reject, check_ordered_log, clauses_decide};
use question_formula::{impossible_without_model, question_formula};
use questions::Question;
use refutation_log::Log;
use std::alloc::Global;

/// Checks a log, which anybody may have made, against the formula of the question. If it is
/// accepted, then no legal run gives the answer yes at any key. Memory counts as run out where the
/// formula is too large for a log.
pub fn check_question(alloc: Global, a: &Admitted, q: &Question, log: &Log) -> Result<(), Reject>
    requires about { IsAbout a.now q.now }
    requires few { length log.now.steps ≤ 4000000000 }
    ensures impossible { OnOk result (¬ IsPossible a.now q.now) }
    ensures ok { OnOk result (AcceptsImpossible a.now q.now log.now) }
    ensures accepts { AcceptsImpossible a.now q.now log.now →
        IsOkUnless result Reject.NoMemory }

    // Memory aside, the answer is exactly the first failure.
    ensures rejects { result ≢ Err Reject.NoMemory →
        (e : Reject) → ((result ≡ Err e) ↔ FailsImpossible a.now q.now log.now e) }
{
    // law: a formula without a model says that no legal run gives the answer yes
    impossible_without_model();
    // law: what is written has one list of clauses
    clauses_are_determined();
    // law: what a log does to a formula it does to each with the same clauses
    clauses_decide();
    let formula = question_formula(alloc, a, q)?;
    check_ordered_log(alloc, &formula, log)
}
