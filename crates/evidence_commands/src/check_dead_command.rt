ghost use Rattle.std.specs.Prelude.{◌≡◌, ◌≤◌, ◌<◌, ◌++◌, IfErr, IfOk, length};
ghost use Rattle.bspl_types.specs.Expansion.{message_name};
ghost use Rattle.bspl_types.specs.Limits.{input_limit};
ghost use Rattle.tool_input.specs.Lines.{line};
ghost use Rattle.evidence_commands.specs.CheckDeadAnswer.{IsCheckDeadAnswer, IsCheckDeadRefused};
ghost use Rattle.evidence_commands.specs.CheckDeadAnswer.{accepted_dead_line};
ghost use Rattle.tool_input.specs.Error.{RejectsFor};

use super::wording::ACCEPTED_DEAD;
use bspl_types::{Admitted, Bytes, Expanded, NoMemory};
use enactability::{dead_steps_are_fewer_than_bytes, enact_clauses_are_few, read_dead};
use log_checker::Reject;
use program_frame::Reply;
use rejections::{log_rejection, reject_line};
use std::alloc::Global;
use tool_input::{AnswerError, Status, error_for};

/// Answers `check-dead` on the text of a log on a message.
pub fn check_dead(
    alloc: Global,
    protocol: &Admitted,
    part: &[u8],
) -> Result<Reply<Status>, AnswerError>
    requires { length part.now ≤ input_limit }
    ensures ok { IfOk result (λ reply.
        IsCheckDeadAnswer protocol.now part.now reply.text reply.status) }
    ensures refused { IfErr result (RejectsFor (IsCheckDeadRefused protocol.now part.now)) }
{
    // law: a log on a message has no more steps than its text has bytes
    dead_steps_are_fewer_than_bytes();
    // law: the formula of a message has few clauses
    enact_clauses_are_few();
    let read = read_dead(alloc, protocol, part);
    let (message, log) = read.map_err(|refusal| error_for(log_rejection(refusal)))?;
    let checked = enactability::check_dead(alloc, protocol, message, &log);
    drop(log);
    match checked {
        Ok(()) => Ok(Reply {
            status: Status::Done,
            text: accepted_dead_text(alloc, protocol.expanded(), message)?,
        }),
        Err(Reject::NoMemory) => Err(AnswerError::NoMemory),
        Err(reject) => Ok(Reply {
            status: Status::Refuted,
            text: reject_line(alloc, reject)?,
        }),
    }
}

/// The line of an accepted log on the message.
fn accepted_dead_text(alloc: Global, x: &Expanded, message: u32) -> Result<Bytes, NoMemory>
    requires { message < length x.now.messages }
    ensures { IfOk result (λ text. text ≡ line (accepted_dead_line (message_name x.now message))) }
{
    let mut text = Bytes::from_slice(alloc, ACCEPTED_DEAD)?;
    text.append(x.message_at(message).name.as_slice())?;
    text.push(b'\n')?;
    Ok(text)
}
