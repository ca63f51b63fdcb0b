ghost use Rattle.ask_commands.specs.Laws.{AcceptedIsImpossible, DoneRulesAreKept, OneAsk};
ghost use Rattle.ask_commands.specs.Laws.{RefutedRulesAreBroken, SaidImpossibleIs, SaidPossibleIs};

use protocol_rules::rules_once;
use question_text::{means_once, one_question};
use questions::same_has_same_answer;

/// A law: arguments request one task of `ask` at most.
pub fn asks_once()
    ensures { OneAsk }
{
    // law: a text is one question at most, or is refused for one reason
    one_question();
}

/// A law: `possible` is answered only to what some legal run answers yes at some key, `impossible`
/// only to what none does, and a log is accepted only on the latter.
pub fn possibilities_are_true()
    ensures possible { SaidPossibleIs }
    ensures impossible { SaidImpossibleIs }
    ensures accepted { AcceptedIsImpossible }
{
    // law: a text is one question at most
    one_question();
    // law: a question means one of the protocol at most, and that has one answer
    means_once();
    same_has_same_answer();
}

/// A law: the status of judged rules is 0 only if the protocol keeps each of them, and 1 only if it
/// does not keep one.
pub fn rules_are_judged_truly()
    ensures kept { DoneRulesAreKept }
    ensures broken { RefutedRulesAreBroken }
{
    // law: a protocol of a text has one list of rules at most
    rules_once();
    // law: a question means one of the protocol at most, and that has one answer
    means_once();
    same_has_same_answer();
}
