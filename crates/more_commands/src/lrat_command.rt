ghost use Rattle.std.specs.Prelude.{◌↔◌, ◌<◌, ◌≤◌, ◌+◌, ◌^◌, length, IfErr, IfOk, IsTrue};
ghost use Rattle.ask_commands.specs.CheckAnswer.{IsCheckAskRefused};
ghost use Rattle.bspl_types.specs.Limits.{input_limit};
ghost use Rattle.evidence_commands.specs.CheckAnswer.{IsCheckRefused};
ghost use Rattle.questions.specs.Subject.{IsAbout};
ghost use Rattle.tool_input.specs.Error.{RejectsFor};
ghost use Rattle.more_commands.specs.LratAnswer.{BeginsOnQuestion, IsKindLratAnswer, IsLratAnswer};
ghost use Rattle.more_commands.specs.LratAnswer.{IsLratRefused, IsProofAnswer};
ghost use Rattle.more_commands.specs.LratAnswer.{IsQuestionLratAnswer, IsQuestionProofAnswer};
ghost use Rattle.more_commands.specs.inner.Proof.{IsProofReply};

use ask_commands::{QuestionLog, read_question_log};
use bspl_types::Admitted;
use clause_core::Formula;
use clause_encoding::formula_of;
use list_base::NoMemory;
use log_checker::Reject;
use lrat_text::lrat_proof;
use program_frame::Reply;
use protocol_check::property_of;
use question_answer::split_title;
use question_formula::plain_question_formula;
use questions::Question;
use refutation_log::{Kind, Log, read_log, steps_are_fewer_than_bytes};
use rejections::{log_rejection, reject_line};
use std::alloc::Global;
use tool_input::{AnswerError, Status, error_for};

/// Answers `lrat` on the text of a log.
pub fn lrat(alloc: Global, protocol: &Admitted, part: &[u8]) -> Result<Reply<Status>, AnswerError>
    requires { length part.now ≤ input_limit }
    ensures ok { IfOk result (λ reply.
        IsLratAnswer protocol.now part.now reply.text reply.status) }
    ensures refused { IfErr result (RejectsFor (IsLratRefused protocol.now part.now)) }
{
    if begins_on_question(part) {
        question_lrat(alloc, protocol, part)
    } else {
        kind_lrat(alloc, protocol, part)
    }
}

/// Whether the first line is that of a log on a question.
fn begins_on_question(part: &[u8]) -> bool
    ensures { IsTrue result ↔ BeginsOnQuestion part.now }
{
    match split_title(part) {
        Some(_) => true,
        None => false,
    }
}

/// Answers `lrat` on the text of a log on a verdict.
fn kind_lrat(alloc: Global, protocol: &Admitted, part: &[u8]) -> Result<Reply<Status>, AnswerError>
    requires { length part.now ≤ input_limit }
    ensures ok { IfOk result (λ reply.
        IsKindLratAnswer protocol.now part.now reply.text reply.status) }
    ensures refused { IfErr result (RejectsFor (IsCheckRefused part.now)) }
{
    // law: a log has no more steps than its text has bytes
    steps_are_fewer_than_bytes();
    let (kind, log) = read_log(alloc, part).map_err(|refusal| error_for(log_rejection(refusal)))?;
    Ok(log_answer(alloc, protocol, kind, &log)?)
}

/// Answers `lrat` on the text of a log on a question.
fn question_lrat(
    alloc: Global,
    protocol: &Admitted,
    part: &[u8],
) -> Result<Reply<Status>, AnswerError>
    requires { length part.now ≤ input_limit }
    ensures ok { IfOk result (λ reply.
        IsQuestionLratAnswer protocol.now part.now reply.text reply.status) }
    ensures refused { IfErr result (RejectsFor (IsCheckAskRefused protocol.now part.now)) }
{
    let read = read_question_log(alloc, protocol.expanded(), part)?;
    Ok(question_log_answer(alloc, protocol, &read.question, &read.log)?)
}

/// The proof in LRAT form that the protocol's formula has no model, by a log on it, or the log's
/// first failure. Without a model the protocol has the property, as `check_safety` and
/// `check_liveness` say.
pub fn log_answer(
    alloc: Global,
    protocol: &Admitted,
    kind: Kind,
    log: &Log,
) -> Result<Reply<Status>, NoMemory>
    requires { length log.now.steps ≤ input_limit }
    ensures { IfOk result (λ reply.
        IsProofAnswer protocol.now kind log.now reply.text reply.status) }
{
    let formula = formula_of(alloc, property_of(kind), protocol)?;
    proof_reply(alloc, &formula, log)
}

/// The same of the formula of a question. Without a model no legal run gives the answer yes, as
/// `check_question` says.
pub fn question_log_answer(
    alloc: Global,
    protocol: &Admitted,
    question: &Question,
    log: &Log,
) -> Result<Reply<Status>, NoMemory>
    requires about { IsAbout protocol.now question.now }
    requires few { length log.now.steps ≤ input_limit }
    ensures { IfOk result (λ reply.
        IsQuestionProofAnswer protocol.now question.now log.now reply.text reply.status) }
{
    let formula = plain_question_formula(alloc, protocol, question)?;
    proof_reply(alloc, &formula, log)
}

/// The proof that the formula has no model, by the log, or the log's first failure.
fn proof_reply(alloc: Global, formula: &Formula, log: &Log) -> Result<Reply<Status>, NoMemory>
    requires { length formula.now.clauses + length log.now.steps < 2 ^ 32 }
    ensures { IfOk result (λ reply.
        IsProofReply formula.now log.now reply.text reply.status) }
{
    match lrat_proof(alloc, formula, log) {
        Ok(text) => Ok(Reply {
            status: Status::Done,
            text,
        }),
        Err(Reject::NoMemory) => Err(NoMemory),
        Err(reject) => Ok(Reply {
            status: Status::Refuted,
            text: reject_line(alloc, reject)?,
        }),
    }
}
