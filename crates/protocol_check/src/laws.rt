ghost use Rattle.protocol_check.specs.Laws.{AcceptedLivenessDoesNotFail, AcceptedLogDoesNotFail};
ghost use Rattle.protocol_check.specs.Laws.{AcceptedSafetyDoesNotFail, LivenessFailsOnce};
ghost use Rattle.protocol_check.specs.Laws.{LogFailsOnce, SafetyFailsOnce, WrittenLogIsAccepted};

use clause_encoding::clauses_are_determined;
use log_checker::{clauses_decide, fails_once};
use refutation_log::{reads_once, writes_texts};

/// A law: for the formula of a protocol and a property a log is accepted or has one first failure,
/// and not both.
pub fn log_fails_once()
    ensures failure { LogFailsOnce }
    ensures accepted { AcceptedLogDoesNotFail }
{
    // law: a protocol has one formula of a property
    clauses_are_determined();
    // law: what a log does to a formula it does to each with the same clauses
    clauses_decide();
    // law: the same for any formula
    fails_once();
}

/// A law: so it is for the safety formula.
pub fn safety_fails_once()
    ensures failure { SafetyFailsOnce }
    ensures accepted { AcceptedSafetyDoesNotFail }
{
    // law: the same for each property
    log_fails_once();
}

/// A law: so it is for the liveness formula.
pub fn liveness_fails_once()
    ensures failure { LivenessFailsOnce }
    ensures accepted { AcceptedLivenessDoesNotFail }
{
    // law: the same for each property
    log_fails_once();
}

/// A law: the text that is written of an accepted log is accepted, and refused for nothing.
pub fn written_log_is_accepted()
    ensures { WrittenLogIsAccepted }
{
    // law: what is written of a log is a text of it
    writes_texts();
    // law: a text is that of one log, or refused for one thing, and not both
    reads_once();
    // law: a log is accepted or has one first failure, and not both
    log_fails_once();
}
