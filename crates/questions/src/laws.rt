ghost use Rattle.questions.specs.Conflict.{ConflictIsAQuestion, SafetyIsAQuestion};
ghost use Rattle.questions.specs.Laws.{AtRestIsQuiet, DeadIsAQuestion, QuietIsAtRest};
ghost use Rattle.questions.specs.Same.{SameHasSameAnswer};

use enactment_model::{legal_by_positions, no_conflict_agrees, second_emission_is_not_enabled};

/// A quiet enactment comes to rest. In `rest` each message that was sent has arrived; what is quiet
/// asks this of each instance.
pub fn quiet_is_at_rest()
    ensures { QuietIsAtRest }
{}

/// An enactment that comes to rest in a run on which the roles agree, as in each legal run of a safe
/// protocol, is quiet.
pub fn at_rest_is_quiet()
    ensures { AtRestIsQuiet }
{}

/// Whether a message is dead is a question: can it have been sent?
pub fn dead_is_a_question()
    ensures { DeadIsAQuestion }
{}

/// Whether some legal run has a conflict is a question of two different messages that produce one
/// parameter: can both have been sent? One message with an `out` is not sent twice under a key.
pub fn conflict_is_a_question()
    ensures { ConflictIsAQuestion }
{
    // law: a second emission of a message with an `out` is not enabled
    second_emission_is_not_enabled();
    // law: in a legal run each event may follow those before its position
    legal_by_positions();
}

/// So whether an admitted protocol is safe is a question of each two of these messages.
pub fn safety_is_a_question()
    ensures { SafetyIsAQuestion }
{
    // law: some legal run has a conflict exactly if such a question is possible
    conflict_is_a_question();
    // law: a legal run without a conflict agrees
    no_conflict_agrees();
}

/// Questions that ask the same, wherever their nodes lie, have the same answer.
pub fn same_has_same_answer()
    ensures { SameHasSameAnswer }
{}
