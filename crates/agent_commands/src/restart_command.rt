ghost use Rattle.std.specs.Prelude.{IfErr, IfOk};
ghost use Rattle.tool_input.specs.Answer.{IsRightAnswer};
ghost use Rattle.tool_input.specs.Error.{RejectsFor};
ghost use Rattle.agent_commands.specs.Answer.{Completes, IsPlayable};
ghost use Rattle.agent_commands.specs.RestartAnswer.{IsRestartAnswer};
ghost use Rattle.agent_commands.specs.RunAnswer.{IsRunRefused};

use super::agents::{job_of, play_if_safe};
use super::answer::Answer;
use super::play_mode::PlayMode;
use bspl_types::Admitted;
use command_line::Budget;
use std::alloc::Global;
use tool_input::AnswerError;
use verdict_commands::reply_with_verdicts;

/// Answers `restart` on the text of agents. They are to play over disks if their protocol is found
/// safe.
pub fn restart(
    alloc: Global,
    brief: bool,
    conflicts: Budget,
    protocol: Admitted,
    part: &[u8],
) -> Result<Answer, AnswerError>
    ensures ok { IfOk result
        (IsRightAnswer Completes (IsRestartAnswer brief conflicts protocol part.now)) }
    ensures safe { IfOk result IsPlayable }
    ensures refused { IfErr result (RejectsFor (IsRunRefused protocol part.now)) }
{
    let job = job_of(alloc, protocol, part)?;
    let found = reply_with_verdicts(alloc, brief, conflicts, job.admitted())?;
    Ok(play_if_safe(job, PlayMode::OverDisks, found))
}
