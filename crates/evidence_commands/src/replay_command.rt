ghost use Rattle.std.specs.Prelude.{IfErr, IfOk};
ghost use Rattle.evidence_commands.specs.ReplayAnswer.{IsReplayAnswer, IsReplayRefused};
ghost use Rattle.tool_input.specs.Error.{RejectsFor};

use bspl_types::Admitted;
use program_frame::Reply;
use rejections::run_rejection;
use report::replay_text;
use run_text::read_run;
use std::alloc::Global;
use tool_input::{AnswerError, Status, error_for};

/// Answers `replay` on the text of a run.
pub fn replay(alloc: Global, protocol: &Admitted, part: &[u8]) -> Result<Reply<Status>, AnswerError>
    ensures ok { IfOk result (λ reply.
        IsReplayAnswer protocol.now part.now reply.text reply.status) }
    ensures refused { IfErr result (RejectsFor (IsReplayRefused protocol.now part.now)) }
{
    let run = read_run(alloc, protocol, part).map_err(|refusal| error_for(run_rejection(refusal)))?;
    let replay = replay_text(alloc, protocol, run.as_slice())?;
    let status = if replay.legal {
        Status::Done
    } else {
        Status::Refuted
    };
    Ok(Reply {
        status,
        text: replay.text,
    })
}
