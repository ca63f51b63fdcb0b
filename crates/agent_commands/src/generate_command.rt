ghost use Rattle.std.specs.Prelude.{◌≡◌, IfErr, IfOk};
ghost use Rattle.report.specs.ExitStatus.{verdict_status};
ghost use Rattle.report.specs.Summary.{generated_text};
ghost use Rattle.tool_input.specs.Answer.{IsRightAnswer};
ghost use Rattle.tool_input.specs.Error.{RejectsFor};
ghost use Rattle.verdict.specs.Verdicts.{AreRightAnswers};
ghost use Rattle.agent_commands.specs.Answer.{Completes, IsPlayable};
ghost use Rattle.agent_commands.specs.GenerateAnswer.{IsGenerateAnswer};
ghost use Rattle.agent_commands.specs.RunAnswer.{IsRunRefused};

use super::agents::{job_of, play_if_safe};
use super::answer::Answer;
use super::play_mode::PlayMode;
use super::stage_count::StageCount;
use super::world_report::WorldReport;
use bspl_types::{Admitted, NoMemory};
use command_line::{Budget, ThreadCount};
use program_frame::Reply;
use report::{generated_text, verdict_status};
use std::alloc::Global;
use tool_input::AnswerError;
use verdict_commands::VerdictReply;

/// Answers `generate` on a protocol of so many stages and the text of its agents. They are to play
/// if it is found safe.
pub fn generate(
    alloc: Global,
    stages: StageCount,
    conflicts: Budget,
    threads: ThreadCount,
    protocol: Admitted,
    part: &[u8],
) -> Result<Answer, AnswerError>
    ensures ok { IfOk result
        (IsRightAnswer Completes (IsGenerateAnswer stages conflicts threads protocol part.now)) }
    ensures safe { IfOk result IsPlayable }
    ensures refused { IfErr result (RejectsFor (IsRunRefused protocol part.now)) }
{
    let job = job_of(alloc, protocol, part)?;
    let found = reply_in_short(alloc, stages, conflicts, job.admitted())?;
    let mode = PlayMode::InThreads {
        threads,
        report: WorldReport::Summary,
    };
    Ok(play_if_safe(job, mode, found))
}

/// The verdicts on a protocol of so many stages, and the reply that gives them without evidence.
fn reply_in_short(
    alloc: Global,
    stages: StageCount,
    conflicts: Budget,
    protocol: &Admitted,
) -> Result<VerdictReply, NoMemory>
    ensures right { IfOk result (λ r. AreRightAnswers protocol.now conflicts r.verdicts) }
    ensures text { IfOk result (λ r.
        r.reply.text ≡ generated_text stages protocol.now r.verdicts) }
    ensures ends { IfOk result (λ r.
        r.reply.status ≡ verdict_status r.verdicts.safety r.verdicts.liveness) }
{
    let verdicts = verdict::verify(alloc, protocol, conflicts.conflicts())?;
    let text = generated_text(alloc, stages.stages(), protocol, &verdicts)?;
    let status = verdict_status(&verdicts);
    let reply = Reply { status, text };
    Ok(VerdictReply { verdicts, reply })
}
