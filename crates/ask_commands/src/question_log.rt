ghost use Rattle.std.specs.Prelude.{◌≡◌, ◌≢◌, ◌≤◌, ◌↔◌, length, IfErr, IfOk, IfSome, IsTrue};
ghost use Rattle.std.specs.Prelude.{MatchOption, OnOk};
ghost use Rattle.bspl_types.specs.Limits.{input_limit};
ghost use Rattle.question_text.specs.Tree.{Phrase};
ghost use Rattle.questions.specs.Subject.{IsAbout};
ghost use Rattle.questions.specs.declared.question.Question.{Question as SpecQuestion};
ghost use Rattle.rejections.specs.PartRejection.{log_rejection};
ghost use Rattle.tool_input.specs.Error.{RejectsFor, error_for};
ghost use Rattle.ask_commands.specs.CheckAnswer.{IsCheckAskRefused, IsLogOnQuestion};
ghost use Rattle.ask_commands.specs.TitledQuestion.{IsSpelledQuestion};

use bspl_types::Expanded;
use list_base::NoMemory;
use question_answer::{
    question_steps_are_fewer_than_bytes, read_titled_log, split_title, titled_once,
};
use question_text::{
    QuestionFault, UnknownName, means_once, one_question, question_of, read_question,
    write_spelling,
};
use questions::Question;
use refutation_log::{Log, LogRefusal};
use rejections::log_rejection;
use std::alloc::Global;
use tool_input::{AnswerError, error_for};

/// A log on a question, and the question as it is spelled.
#[derive(Drop)]
pub struct QuestionLog<'a> {
    pub spelling: &'a [u8],
    pub question: Question,
    pub log: Log,
}

/// Reads the text of a log on a question of the protocol.
pub fn read_question_log<'a>(
    alloc: Global,
    x: &Expanded,
    part: &'a [u8],
) -> Result<QuestionLog<'a>, AnswerError>
    requires { length part.now ≤ input_limit }
    ensures ok { IfOk result (λ read.
        IsLogOnQuestion x.now part.now read.spelling.now read.question read.log) }
    ensures about { IfOk result (λ read. IsAbout x.now read.question) }
    ensures few { IfOk result (λ read. length read.log.steps ≤ input_limit) }
    ensures refused { IfErr result (RejectsFor (IsCheckAskRefused x.now part.now)) }
{
    // law: a log has no more steps than its text has bytes
    question_steps_are_fewer_than_bytes();
    // law: a text has one first line
    titled_once();
    let Some((version, spelling, rest)) = split_title(part) else {
        return Err(bad_title());
    };
    let Some(question) = spelled_question(alloc, x, spelling)? else {
        return Err(bad_title());
    };
    match read_titled_log(alloc, version, rest) {
        Ok(log) => Ok(QuestionLog {
            spelling,
            question,
            log,
        }),
        Err(refusal) => Err(error_for(log_rejection(refusal))),
    }
}

/// The error for a first line that is none.
fn bad_title() -> AnswerError
    ensures { result ≡ error_for (log_rejection (LogRefusal.Form 1)) }
{
    error_for(log_rejection(LogRefusal::Form { line: 1 }))
}

/// The question that the text spells as answers do, if it is about the protocol.
fn spelled_question(alloc: Global, x: &Expanded, text: &[u8]) -> Result<Option<Question>, NoMemory>
    requires { length text.now ≤ 4294967295 }
    ensures exact { IfOk result (λ found. MatchOption found
        ((phrase : Phrase) (q : SpecQuestion) → ¬ IsSpelledQuestion x.now text.now phrase q)
        (λ q. (phrase : Phrase) × IsSpelledQuestion x.now text.now phrase q)) }
    ensures about { IfOk result (λ found. IfSome found (IsAbout x.now)) }
{
    // law: a text is one question at most, or is refused for one reason
    one_question();
    // law: a question means one of the protocol at most, or has one first unknown name
    means_once();
    let tree = match read_question(alloc, text) {
        Ok(tree) => tree,
        Err(fault) => {
            misread(fault)?;
            return Ok(None);
        }
    };
    let spelling = write_spelling(alloc, &tree)?;
    if !are_same(spelling.as_slice(), text) {
        return Ok(None);
    }
    match question_of(alloc, x, &tree) {
        Ok(question) => Ok(Some(question)),
        Err(name) => {
            unknown(&name)?;
            Ok(None)
        }
    }
}

/// Whether the texts are the same.
fn are_same(one: &[u8], other: &[u8]) -> bool
    ensures { IsTrue result ↔ (one.now ≡ other.now) }
{
    one == other
}

/// The text is no question, unless memory ran out.
fn misread(fault: QuestionFault) -> Result<(), NoMemory>
    ensures { OnOk result (fault ≢ QuestionFault.NoMemory) }
{
    match fault {
        QuestionFault::Byte(_) | QuestionFault::TooLong(_) | QuestionFault::Syntax(_) => Ok(()),
        QuestionFault::NoMemory => Err(NoMemory),
    }
}

/// The protocol does not have the name, unless memory ran out.
fn unknown(name: &UnknownName) -> Result<(), NoMemory>
    ensures { OnOk result (name.now ≢ UnknownName.NoMemory) }
{
    match name {
        UnknownName::Message(_) | UnknownName::Role(_) | UnknownName::Parameter(_) => Ok(()),
        UnknownName::NoMemory => Err(NoMemory),
    }
}
