ghost use Rattle.role_questions.specs.AskedLaws.{AskedLinesKeepOrStay, AskedOutcomesAreOne};
ghost use Rattle.role_questions.specs.Laws.{FormsAreEnabled, LinePutsOneQuestion};
ghost use Rattle.role_questions.specs.Laws.{QuestionIsNoRequest};

use bspl_types::spells_once;
use role_server::live_replies_are_determined;

/// A law: of the instances under a key of a role's messages, exactly those are enabled that fill in
/// one of the forms under it.
pub fn forms_are_enabled()
    ensures { FormsAreEnabled }
{}

/// A law: a line puts one question at most, and then no request.
pub fn question_is_one()
    ensures one { LinePutsOneQuestion }
    ensures other { QuestionIsNoRequest }
{
    // law: values of one spelling are equal
    spells_once();
}

/// A law: a line of an asked role is always kept or never, and one store comes after it. Its reply
/// is one too, if it is no answer. A line that is kept has its LF, and each other leaves the store.
pub fn asked_replies_are_determined()
    ensures outcomes { AskedOutcomesAreOne }
    ensures keeps { AskedLinesKeepOrStay }
{
    // law: a line of a live role has one outcome
    live_replies_are_determined();
}
