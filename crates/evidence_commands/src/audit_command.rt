ghost use Rattle.std.specs.Prelude.{IfErr, IfOk};
ghost use Rattle.history_audit.specs.Histories.{AreHistories};
ghost use Rattle.evidence_commands.specs.AuditAnswer.{IsAudited, IsAuditAnswer, IsAuditRefused};
ghost use Rattle.tool_input.specs.Error.{RejectsFor};

use bspl_types::{Admitted, NoMemory};
use history_audit::{AuditNo, Histories, read_histories};
use program_frame::Reply;
use rejections::histories_rejection;
use report::{bad_place_text, consistent_text, cycle_text};
use std::alloc::Global;
use tool_input::{AnswerError, Status, error_for};

/// Answers `audit` on the text of histories.
pub fn audit(alloc: Global, protocol: &Admitted, part: &[u8]) -> Result<Reply<Status>, AnswerError>
    ensures ok { IfOk result (λ reply.
        IsAuditAnswer protocol.now part.now reply.text reply.status) }
    ensures refused { IfErr result (RejectsFor (IsAuditRefused protocol.now part.now)) }
{
    let read = read_histories(alloc, protocol, part);
    let histories = read.map_err(|refusal| error_for(histories_rejection(refusal)))?;
    Ok(reply_to(alloc, protocol, &histories)?)
}

/// The reply that says whether one run explains the histories.
fn reply_to(
    alloc: Global,
    protocol: &Admitted,
    histories: &Histories,
) -> Result<Reply<Status>, NoMemory>
    requires { AreHistories protocol.now histories.now }
    ensures { IfOk result (λ reply.
        IsAudited protocol.now histories.now reply.text reply.status) }
{
    match history_audit::audit(alloc, protocol, histories) {
        Ok(run) => Ok(Reply {
            status: Status::Done,
            text: consistent_text(alloc, protocol, run.as_slice())?,
        }),
        Err(AuditNo::Bad { role, place, why }) => Ok(Reply {
            status: Status::Refuted,
            text: bad_place_text(alloc, protocol.expanded(), role, place, why)?,
        }),
        Err(AuditNo::Cycle(points)) => Ok(Reply {
            status: Status::Refuted,
            text: cycle_text(alloc, protocol.expanded(), points.as_slice())?,
        }),
        Err(AuditNo::NoMemory) => Err(NoMemory),
    }
}
