ghost use Rattle.std.specs.Prelude.{◌≡◌, ◌≤◌, IfErr, IfOk, length};
ghost use Rattle.bspl_types.specs.Limits.{input_limit};
ghost use Rattle.tool_input.specs.Error.{RejectsFor};
ghost use Rattle.tool_input.specs.Lines.{line};
ghost use Rattle.evidence_commands.specs.CheckAnswer.{IsCheckAnswer, IsCheckRefused, accepted_kind_line};

use super::wording::{ACCEPTED_LIVENESS, ACCEPTED_SAFETY};
use bspl_types::{Admitted, Bytes, NoMemory};
use clause_encoding::clauses_are_few;
use log_checker::Reject;
use program_frame::Reply;
use protocol_check::property_of;
use refutation_log::{Kind, read_log, steps_are_fewer_than_bytes};
use rejections::{log_rejection, reject_line};
use std::alloc::Global;
use tool_input::{AnswerError, Status, error_for};

/// Answers `check` on the text of a log.
pub fn check(alloc: Global, protocol: &Admitted, part: &[u8]) -> Result<Reply<Status>, AnswerError>
    requires { length part.now ≤ input_limit }
    ensures ok { IfOk result (λ reply.
        IsCheckAnswer protocol.now part.now reply.text reply.status) }
    ensures refused { IfErr result (RejectsFor (IsCheckRefused part.now)) }
{
    // law: a log has no more steps than its text has bytes
    steps_are_fewer_than_bytes();
    // law: the formula of a property has few clauses
    clauses_are_few();
    let (kind, log) = read_log(alloc, part).map_err(|refusal| error_for(log_rejection(refusal)))?;
    let checked = protocol_check::check(alloc, property_of(kind), protocol, &log);
    drop(log);
    match checked {
        Ok(()) => Ok(Reply {
            status: Status::Done,
            text: accepted_text(alloc, kind)?,
        }),
        Err(Reject::NoMemory) => Err(AnswerError::NoMemory),
        Err(reject) => Ok(Reply {
            status: Status::Refuted,
            text: reject_line(alloc, reject)?,
        }),
    }
}

/// The line of an accepted log of the kind.
fn accepted_text(alloc: Global, kind: Kind) -> Result<Bytes, NoMemory>
    ensures { IfOk result (λ text. text ≡ line (accepted_kind_line kind)) }
{
    let words = match kind {
        Kind::Safety => ACCEPTED_SAFETY,
        Kind::Liveness => ACCEPTED_LIVENESS,
    };
    let mut text = Bytes::from_slice(alloc, words)?;
    text.push(b'\n')?;
    Ok(text)
}
