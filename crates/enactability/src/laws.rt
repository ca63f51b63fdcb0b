ghost use Rattle.enactability.specs.Laws.{AcceptedDeadDoesNotFail, DeadExactlyIfNoModel};
ghost use Rattle.enactability.specs.Laws.{DeadLogFailsOnce, DeadLogIsNotRefused};
ghost use Rattle.enactability.specs.Laws.{DeadStepsAreFewerThanBytes};
ghost use Rattle.enactability.specs.Laws.{EnactClausesAreFew, ModelEnacts, NoModelIsDead};
ghost use Rattle.enactability.specs.Laws.{TextHasOneDeadLog, TextHasOneDeadRefusal};
ghost use Rattle.enactability.specs.Laws.{WrittenIsDeadText};
ghost use Rattle.enactability.specs.inner.Search.{CutEnacts};

use bspl_types::{equal_values_are_one, messages_are_named_once};
use clause_encoding::{clauses_are_determined, safety_clauses_are_few, written_is_satisfied};
use enactment_model::prefix_is_legal;
use first_occurrences::{assignment_exists, shared_clauses_hold};
use log_checker::{clauses_decide, fails_once};
use refutation_log::{reads_once, steps_have_lines};
use run_text::names_are_fields;
use witness_replay::shared_model_has_run;

/// A law: if the formula of a message has no model, then no legal run, over any number of keys,
/// emits it: the first occurrences under the key of its emission would be a model (after Singh
/// 2012).
pub fn no_model_is_dead()
    ensures { NoModelIsDead }
{
    // law: lists of values that the test finds equal are one list
    equal_values_are_one();
    // laws: a run has an assignment of its first occurrences, which satisfies the shared clauses
    assignment_exists();
    shared_clauses_hold();
    // law: a model of the formula satisfies what is written
    written_is_satisfied();
}

/// A law: each model of the formula of a message gives a legal run, which is cut after its first
/// emission of the message.
pub fn model_enacts()
    ensures { ModelEnacts }
{
    // law: a model of the shared clauses has a legal run
    shared_model_has_run();
    // law: it is the evidence if it is cut so
    cut_enacts();
}

/// A law: the run of a model is evidence for each message that it emits, if it is cut after its
/// first emission of the message.
pub(crate) fn cut_enacts()
    ensures { CutEnacts }
{
    // law: the run of a model is under the key of ones
    shared_model_has_run();
    // law: the first events of a legal run are legal
    prefix_is_legal();
}

/// A law: a message is dead exactly if its formula has no model.
pub fn dead_exactly_if_no_model()
    ensures { DeadExactlyIfNoModel }
{
    // law: lists of values that the test finds equal are one list
    equal_values_are_one();
    // laws: a run has an assignment of its first occurrences, which satisfies the shared clauses
    assignment_exists();
    shared_clauses_hold();
    // law: each model gives a run
    model_enacts();
}

/// A law: the formula of a message has few clauses.
pub fn enact_clauses_are_few()
    ensures { EnactClausesAreFew }
{
    // law: the safety formula has few clauses
    safety_clauses_are_few();
}

/// A law: for the formula of a message a log is accepted or has one first failure, and not both.
pub fn dead_log_fails_once()
    ensures failure { DeadLogFailsOnce }
    ensures accepted { AcceptedDeadDoesNotFail }
{
    // law: a message has one formula
    clauses_are_determined();
    // law: what a log does to a formula it does to each with the same clauses
    clauses_decide();
    // law: the same for any formula
    fails_once();
}

/// A law: what is written of a log on a message is a text of it.
pub fn dead_texts_written()
    ensures { WrittenIsDeadText }
{}

/// A law: a text is that of one log on one message at most, or refused for one thing, and not both.
pub fn dead_texts_read_once()
    ensures logs { TextHasOneDeadLog }
    ensures refusals { TextHasOneDeadRefusal }
    ensures exclusive { DeadLogIsNotRefused }
{
    // laws: the name of a message has no LF, and is that of no other one
    names_are_fields();
    messages_are_named_once();
    // law: the same of the text of any log
    reads_once();
}

/// A law: a log on a message has no more steps than its text has bytes.
pub fn dead_steps_are_fewer_than_bytes()
    ensures { DeadStepsAreFewerThanBytes }
{
    // law: the lines of a log's entries have as many bytes as it has steps, or more
    steps_have_lines();
}
