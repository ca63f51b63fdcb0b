ghost use Rattle.std.specs.Prelude.{◌≡◌, ◌↔◌, ◌<◌, ◌≤◌, IfErr, IfOk, IfSome, IsTrue, None, length};
ghost use Rattle.bspl_types.specs.Limits.{input_limit};
ghost use Rattle.agent_commands.specs.Answer.{Completes, IsPlayable};
ghost use Rattle.tool_input.specs.Answer.{IsRightAnswer};
ghost use Rattle.tool_input.specs.Error.{RejectsFor};
ghost use Rattle.bspl_tool.specs.Task.{IsAnsweredWhole, own_text, task_rules, task_of, task_threads};

use agent_commands::{Answer, StageCount, generate, restart, run, serve};
use bspl_types::{Admitted, Bytes, NoMemory};
use command_line::{Budget, Command, ThreadCount};
use evidence_commands::{audit, check, check_dead, replay};
use program_frame::Reply;
use std::alloc::Global;
use tool_input::{AnswerError, Need, Part, Status};
use verdict_commands::{dead, expand, verify};

/// What is done with the protocol that the arguments name.
#[derive(Clone, Copy, Debug, PartialEq, Eq)]
pub enum Task {
    /// Its expansion is printed.
    Expand,
    /// It is verified, with at most these conflicts for each verdict. A brief verdict has no log.
    Verify {
        brief: bool,
        conflicts: Budget,
    },
    /// A log is checked against its safety or its liveness formula.
    Check,
    /// A run of it is replayed.
    Replay,
    /// It is verified likewise, and if it is safe, agents play it by their scripts, each role in so
    /// many threads.
    Run {
        brief: bool,
        conflicts: Budget,
        threads: ThreadCount,
    },
    /// It is verified likewise, and if it is safe, agents play it on one thread, over disks of
    /// which each stops once.
    Restart {
        brief: bool,
        conflicts: Budget,
    },
    /// Each of its messages is searched for, with at most these conflicts for each. A brief answer
    /// has no run and no log.
    Dead {
        brief: bool,
        conflicts: Budget,
    },
    /// A log is checked against the formula of a message.
    CheckDead,
    /// One of its roles replies to lines.
    Serve,
    /// The histories of its roles are audited.
    Audit,
    /// A protocol of so many stages is generated and verified, and if it is safe, agents play it. A
    /// summary of all that is printed.
    Generate {
        stages: StageCount,
        conflicts: Budget,
        threads: ThreadCount,
    },
}

/// The task of a command on the protocol of a name, with its options. `generate` has none.
pub fn task_of(
    command: Command,
    brief: bool,
    conflicts: Budget,
    threads: ThreadCount,
) -> Option<Task>
    ensures { result ≡ task_of command brief conflicts threads }
{
    match command {
        Command::Expand => Some(Task::Expand),
        Command::Verify => Some(Task::Verify { brief, conflicts }),
        Command::Check => Some(Task::Check),
        Command::Replay => Some(Task::Replay),
        Command::Run => Some(Task::Run {
            brief,
            conflicts,
            threads,
        }),
        Command::Restart => Some(Task::Restart { brief, conflicts }),
        Command::Dead => Some(Task::Dead { brief, conflicts }),
        Command::CheckDead => Some(Task::CheckDead),
        Command::Serve => Some(Task::Serve),
        Command::Audit => Some(Task::Audit),
        Command::Generate => None,
    }
}

impl Task {
    /// What it needs of the input beside the protocol text.
    pub fn needs(&self) -> Need
        ensures { result ≡ (task_rules self.now).needs }
    {
        match self {
            Task::Expand | Task::Verify { .. } | Task::Dead { .. } => Need::Nothing,
            Task::Check | Task::CheckDead => Need::Part(Part::Log),
            Task::Replay => Need::Part(Part::Run),
            Task::Serve => Need::Part(Part::Wire),
            Task::Audit => Need::Part(Part::Histories),
            Task::Run { .. } | Task::Restart { .. } | Task::Generate { .. } => {
                Need::Part(Part::Agents)
            }
        }
    }

    /// Whether its agents play in threads of their own.
    pub fn is_threaded(&self) -> bool
        ensures { IsTrue result ↔ (0 < task_threads self.now) }
    {
        match self {
            Task::Run { threads, .. } => threads.threads() > 0,
            Task::Generate { threads, .. } => threads.threads() > 0,
            Task::Expand
            | Task::Verify { .. }
            | Task::Check
            | Task::Replay
            | Task::Restart { .. }
            | Task::Dead { .. }
            | Task::CheckDead
            | Task::Serve
            | Task::Audit => false,
        }
    }

    /// Whether it is done on the input.
    pub fn reads_input(&self) -> bool
        ensures { IsTrue result ↔ (own_text self.now ≡ None) }
    {
        match self {
            Task::Generate { .. } => false,
            _ => true,
        }
    }

    /// The text that it makes for itself and is done on in place of the input.
    pub fn own_text(&self, alloc: Global) -> Result<Option<Bytes>, NoMemory>
        ensures text { IfOk result (λ text. text ≡ own_text self.now) }
        ensures short { IfOk result (λ text.
            IfSome text (λ bytes. length bytes ≤ input_limit)) }
    {
        match self {
            Task::Generate { stages, .. } => {
                Ok(Some(workload::generate(alloc, stages.stages())?))
            }
            _ => Ok(None),
        }
    }

    /// What is answered on the protocol and the bytes that are given beside it.
    pub fn answer(
        self,
        alloc: Global,
        protocol: Admitted,
        given: &[u8],
    ) -> Result<Answer, AnswerError>
        requires { length given.now ≤ input_limit }
        ensures ok { IfOk result
            (IsRightAnswer Completes ((task_rules self).answers protocol given.now)) }
        ensures safe { IfOk result IsPlayable }
        ensures refused { IfErr result (RejectsFor ((task_rules self).refuses protocol given.now)) }
    {
        match self {
            Task::Run {
                brief,
                conflicts,
                threads,
            } => run(alloc, brief, conflicts, threads, protocol, given),
            Task::Restart { brief, conflicts } => {
                restart(alloc, brief, conflicts, protocol, given)
            }
            Task::Generate {
                stages,
                conflicts,
                threads,
            } => generate(alloc, stages, conflicts, threads, protocol, given),
            _ => Ok(Answer::Whole(self.reply(alloc, &protocol, given)?)),
        }
    }

    /// What is replied on the protocol and those bytes, if no agents are to play.
    fn reply(
        self,
        alloc: Global,
        protocol: &Admitted,
        given: &[u8],
    ) -> Result<Reply<Status>, AnswerError>
        requires whole { IsAnsweredWhole self }
        requires short { length given.now ≤ input_limit }
        ensures ok { IfOk result (λ reply.
            (task_rules self).answers protocol.now given.now reply.text reply.status) }
        ensures refused { IfErr result
            (RejectsFor ((task_rules self).refuses protocol.now given.now)) }
    {
        match self {
            Task::Expand => Ok(expand(alloc, protocol)?),
            Task::Verify { brief, conflicts } => Ok(verify(alloc, brief, conflicts, protocol)?),
            Task::Dead { brief, conflicts } => Ok(dead(alloc, brief, conflicts, protocol)?),
            Task::Check => check(alloc, protocol, given),
            Task::CheckDead => check_dead(alloc, protocol, given),
            Task::Replay => replay(alloc, protocol, given),
            Task::Audit => audit(alloc, protocol, given),
            Task::Serve => serve(alloc, protocol, given),
            Task::Run { .. } | Task::Restart { .. } | Task::Generate { .. } => unreachable!(),
        }
    }
}
