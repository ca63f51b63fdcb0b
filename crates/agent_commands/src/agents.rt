ghost use Rattle.std.specs.Prelude.{◌↔◌, ℕ, IfErr, IfOk, IsTrue};
ghost use Rattle.tool_input.specs.Answer.{IsRightAnswer};
ghost use Rattle.tool_input.specs.Error.{RejectsFor};
ghost use Rattle.verdict.specs.Right.{IsRight};
ghost use Rattle.agent_commands.specs.Answer.{Completes, IsPlayable};
ghost use Rattle.agent_commands.specs.RunAnswer.{IsRunRefused};
ghost use Rattle.agent_commands.specs.inner.IfSafe.{IsFoundSafe, PlaysIfSafe};
ghost use Rattle.agent_commands.specs.inner.Job.{IsGivenJob};

use super::answer::Answer;
use super::play_mode::PlayMode;
use agent_scripts::Job;
use bspl_types::Admitted;
use rejections::script_rejection;
use script_text::read_scripts;
use std::alloc::Global;
use tool_input::{AnswerError, error_for};
use verdict::Safety;
use verdict_commands::VerdictReply;

/// The job that the text gives the agents of the protocol.
pub(crate) fn job_of(alloc: Global, protocol: Admitted, part: &[u8]) -> Result<Job, AnswerError>
    ensures ok { IfOk result (IsGivenJob protocol part.now) }
    ensures refused { IfErr result (RejectsFor (IsRunRefused protocol part.now)) }
{
    match read_scripts(alloc, part, &protocol) {
        Ok(agents) => Ok(Job::of(protocol, agents)),
        Err(refusal) => Err(error_for(script_rejection(refusal))),
    }
}

/// The answer that begins with the reply. The agents of the job are to play if their protocol is
/// found safe. The verdicts are let go before they do.
pub(crate) fn play_if_safe(job: Job, mode: PlayMode, found: VerdictReply) -> Answer
    ensures right { IsRightAnswer Completes
        (PlaysIfSafe job mode found.verdicts.safety found.reply) result }
    ensures safe { (budget : ℕ) → IsRight job.protocol budget found.verdicts.safety →
        IsPlayable result }
{
    let VerdictReply { verdicts, reply } = found;
    let safe = is_safe(&verdicts.safety);
    drop(verdicts);
    if safe {
        Answer::Play {
            job,
            mode,
            so_far: reply,
        }
    } else {
        Answer::Whole(reply)
    }
}

/// Whether the protocol is found safe.
fn is_safe(safety: &Safety) -> bool
    ensures { IsTrue result ↔ IsFoundSafe safety.now }
{
    matches!(safety, Safety::Safe(_))
}
