ghost use Rattle.more_commands.specs.Laws.{AcceptedIsTrue, AnswersAddWords, BrokenIsTrue};
ghost use Rattle.more_commands.specs.Laws.{DoneAnswersAreTrue, DonePagesAreTrue, ImpossibleIsTrue};
ghost use Rattle.more_commands.specs.Laws.{KeptIsTrue, OneFormulaOutput, PageRulesAreTrue};
ghost use Rattle.more_commands.specs.Laws.{PossibleIsTrue};

use super::question::MoreQuestion;
use ask_commands::{possibilities_are_true, rules_are_judged_truly};
use bspl_types::messages_are_named_once;
use formula_text::{one_question_text, one_text, same_has_same_formula};
use page_sections::rules_are_shown_truly;
use question_text::means_once;
use tool_input::{Question, texts_are_judged_once};

/// A law: what an output of `ask` says of a question is true of the protocol that the input
/// declares.
pub fn answers_are_true()
    ensures possible { PossibleIsTrue }
    ensures impossible { ImpossibleIsTrue }
    ensures accepted { AcceptedIsTrue }
{
    // law: arguments request one task
    MoreQuestion::asks_once();
    // law: a text declares one protocol for a name
    texts_are_judged_once();
    // law: the lines of answers are true
    possibilities_are_true();
}

/// A law: so it is with the rules in the protocol's text.
pub fn rules_are_answered_truly()
    ensures kept { KeptIsTrue }
    ensures broken { BrokenIsTrue }
{
    // law: arguments request one task
    MoreQuestion::asks_once();
    // law: a text declares one protocol for a name
    texts_are_judged_once();
    // law: the status of judgements is true
    rules_are_judged_truly();
}

/// A law: arguments that ask for a formula, and an input, have one output and one status.
pub fn one_output()
    ensures { OneFormulaOutput }
{
    // law: arguments request one task
    MoreQuestion::asks_once();
    // law: a text declares one protocol for a name, or is refused for one reason
    texts_are_judged_once();
    // law: a name is that of one message
    messages_are_named_once();
    // law: a question means one of the protocol at most
    means_once();
    // laws: a protocol has one text of its formula, and questions that ask the same have one
    one_text();
    one_question_text();
    same_has_same_formula();
}

/// A law: the status 0 is that of a page on a safe and live protocol, and a rule is shown as kept
/// only if the protocol keeps it, as broken only if it does not.
pub fn done_pages_are_true()
    ensures verdicts { DonePagesAreTrue }
    ensures rules { PageRulesAreTrue }
{
    // law: what the section of the rules says is true
    rules_are_shown_truly();
}

/// A law: so it is with an answer of `verify` in words.
pub fn done_answers_are_true()
    ensures { DoneAnswersAreTrue }
{}

/// A law: what `explain` writes is an output of the tool for the same command line, and then words:
/// on its refusal, its verdicts or its status.
pub fn answers_add_words()
    ensures { AnswersAddWords }
{}
