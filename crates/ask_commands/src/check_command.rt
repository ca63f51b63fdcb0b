ghost use Rattle.std.specs.Prelude.{◌≡◌, ◌≤◌, ◌++◌, length, IfErr, IfOk};
ghost use Rattle.bspl_types.specs.Limits.{input_limit};
ghost use Rattle.tool_input.specs.Error.{RejectsFor};
ghost use Rattle.tool_input.specs.Lines.{line};
ghost use Rattle.ask_commands.specs.CheckAnswer.{IsCheckAskAnswer, IsCheckAskRefused};
ghost use Rattle.ask_commands.specs.declared.wording.TheConstants as wording;

use super::question_log::read_question_log;
use super::wording::ACCEPTED;
use bspl_types::Admitted;
use list_base::{Bytes, NoMemory};
use log_checker::Reject;
use program_frame::Reply;
use question_answer::check_question;
use rejections::reject_line;
use std::alloc::Global;
use tool_input::{AnswerError, Status};

/// Answers whether a log, which anybody may have made, refutes its question.
pub fn check(alloc: Global, protocol: &Admitted, part: &[u8]) -> Result<Reply<Status>, AnswerError>
    requires { length part.now ≤ input_limit }
    ensures ok { IfOk result (λ reply.
        IsCheckAskAnswer protocol.now part.now reply.text reply.status) }
    ensures refused { IfErr result (RejectsFor (IsCheckAskRefused protocol.now part.now)) }
{
    let read = read_question_log(alloc, protocol.expanded(), part)?;
    match check_question(alloc, protocol, &read.question, &read.log) {
        Ok(()) => Ok(Reply {
            status: Status::Done,
            text: accepted_text(alloc, read.spelling)?,
        }),
        Err(Reject::NoMemory) => Err(AnswerError::NoMemory),
        Err(reject) => Ok(Reply {
            status: Status::Refuted,
            text: reject_line(alloc, reject)?,
        }),
    }
}

/// The line of an accepted log on the question that is spelled so.
fn accepted_text(alloc: Global, spelling: &[u8]) -> Result<Bytes, NoMemory>
    ensures { IfOk result (λ text. text ≡ line (wording.ACCEPTED.now ++ spelling.now)) }
{
    let mut text = Bytes::from_slice(alloc, ACCEPTED)?;
    text.append(spelling)?;
    text.push(b'\n')?;
    Ok(text)
}
