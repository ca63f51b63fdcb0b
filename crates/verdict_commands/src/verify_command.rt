ghost use Rattle.std.specs.Prelude.{◌≡◌, IfOk};
ghost use Rattle.report.specs.ExitStatus.{verdict_status};
ghost use Rattle.verdict_commands.specs.VerifyAnswer.{IsVerdictAnswer, IsVerifyAnswer};

use bspl_types::{Admitted, NoMemory};
use command_line::Budget;
use program_frame::Reply;
use report::{right_runs_fit, verdict_status, verdict_text};
use std::alloc::Global;
use tool_input::Status;
use verdict::Verdicts;

/// Verdicts, and what is written of them.
#[derive(Drop)]
pub struct VerdictReply {
    pub verdicts: Verdicts,
    pub reply: Reply<Status>,
}

/// Answers `verify`.
pub fn verify(
    alloc: Global,
    brief: bool,
    conflicts: Budget,
    protocol: &Admitted,
) -> Result<Reply<Status>, NoMemory>
    ensures { IfOk result (λ reply.
        IsVerifyAnswer brief conflicts protocol.now reply.text reply.status) }
{
    let VerdictReply { reply, .. } = reply_with_verdicts(alloc, brief, conflicts, protocol)?;
    Ok(reply)
}

/// The verdicts, with no more than `conflicts` conflicts in the search for each, and the reply that
/// gives them.
pub fn reply_with_verdicts(
    alloc: Global,
    brief: bool,
    conflicts: Budget,
    protocol: &Admitted,
) -> Result<VerdictReply, NoMemory>
    ensures answer { IfOk result (λ r.
        IsVerdictAnswer brief conflicts protocol.now r.verdicts r.reply.text) }
    ensures ends { IfOk result (λ r.
        r.reply.status ≡ verdict_status r.verdicts.safety r.verdicts.liveness) }
{
    // law: the runs of right verdicts fit the protocol
    right_runs_fit();
    let verdicts = verdict::verify(alloc, protocol, conflicts.conflicts())?;
    let text = verdict_text(alloc, protocol, &verdicts, brief)?;
    let status = verdict_status(&verdicts);
    let reply = Reply { status, text };
    Ok(VerdictReply { verdicts, reply })
}
