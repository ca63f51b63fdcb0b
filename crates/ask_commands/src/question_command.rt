ghost use Rattle.std.specs.Prelude.{◌≡◌, ◌≤◌, IfErr, IfOk};
ghost use Rattle.question_answer.specs.Answer.{HasAnswerLogInRange, HasEvidence, HasFittingEvents};
ghost use Rattle.question_text.specs.Meaning.{MeansQuestion};
ghost use Rattle.question_text.specs.Tree.{phrase_of};
ghost use Rattle.question_text.specs.declared.unknown.UnknownName.{UnknownName as SpecUnknown};
ghost use Rattle.questions.specs.Subject.{IsAbout};
ghost use Rattle.tool_input.specs.Error.{RejectsFor, error_for};
ghost use Rattle.ask_commands.specs.AskAnswer.{IsAskAnswer, IsAskRefused, name_rejection};
ghost use Rattle.ask_commands.specs.AskAnswer.{possibility_status};

use super::answer_text::ask_text;
use super::options::AskOptions;
use bspl_types::{Admitted, Expanded};
use program_frame::Reply;
use question_answer::{Answer, QuestionSearch};
use question_text::{Tree, UnknownName, question_of, write_spelling};
use questions::Question;
use std::alloc::Global;
use tool_input::{
    AnswerError, Code, Field, Rejection, Status, error_for, undeclared_parameter, undeclared_role,
};

/// Answers whether the question is possible: by a legal run that gives the answer yes, or by a log
/// that refutes its formula.
pub fn ask(
    alloc: Global,
    protocol: &Admitted,
    question: &Tree,
    options: AskOptions,
) -> Result<Reply<Status>, AnswerError>
    ensures ok { IfOk result (λ reply.
        IsAskAnswer protocol.now (phrase_of question.now) options reply.text reply.status) }
    ensures refused { IfErr result
        (RejectsFor (IsAskRefused protocol.now (phrase_of question.now))) }
{
    let asked = asked(alloc, protocol.expanded(), question)?;
    let mut searches = QuestionSearch::new(alloc, protocol)?;
    let answer = searches.answer(alloc, &asked, options.conflicts.conflicts())?;
    let spelling = write_spelling(alloc, question)?;
    Ok(Reply {
        status: status_of(&answer),
        text: ask_text(alloc, protocol, spelling.as_slice(), options.brief, &answer)?,
    })
}

/// The question that the tree asks of the protocol.
pub fn asked(alloc: Global, x: &Expanded, tree: &Tree) -> Result<Question, AnswerError>
    ensures means { IfOk result (MeansQuestion x.now (phrase_of tree.now)) }
    ensures about { IfOk result (IsAbout x.now) }
    ensures refused { IfErr result (RejectsFor (IsAskRefused x.now (phrase_of tree.now))) }
{
    match question_of(alloc, x, tree) {
        Ok(question) => Ok(question),
        Err(unknown) => Err(error_for(name_rejection(unknown))),
    }
}

/// The rejection of a name that the protocol does not have, unless memory ran out.
fn name_rejection(unknown: UnknownName) -> Option<Rejection>
    ensures { result ≡ name_rejection unknown }
{
    match unknown {
        UnknownName::Message(name) => { Some(Rejection::with_one(Code::E(15), Field::Name(name))) }
        UnknownName::Role(name) => Some(undeclared_role(name)),
        UnknownName::Parameter(name) => Some(undeclared_parameter(name)),
        UnknownName::NoMemory => None,
    }
}

/// The status of the answer.
fn status_of(answer: &Answer) -> Status
    ensures { result ≡ possibility_status answer.now }
{
    match answer {
        Answer::Possible(_) => Status::Done,
        Answer::Impossible(_) => Status::Refuted,
        Answer::Undecided(_) => Status::Undecided,
    }
}
