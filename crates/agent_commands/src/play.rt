ghost use Rattle.std.specs.Prelude.{◌≡◌, ◌++◌, ℕ, IfOk};
ghost use Rattle.enactment_model.specs.Safety.{SafeProtocol};
ghost use Rattle.agent_commands.specs.Answer.{Completes, IsModeText, IsPlayable};
ghost use Rattle.agent_commands.specs.PlayedText.{IsPlayedText};

use super::answer::Answer;
use super::play_mode::PlayMode;
use super::restart_text::disks_text;
use super::world_report::{WorldReport, report_on};
use adapter::Gate;
use agent_scripts::Job;
use bspl_types::{Bytes, NoMemory};
use command_line::ThreadCount;
use program_frame::Reply;
use std::alloc::Global;
use std::sync::Wait;
use std::thread::Threads;
use tool_input::Status;
use world_run::{run_one, run_threads};

/// The reply that the answer comes to. If agents are to play, they do so on this thread, which is a
/// right way whatever number of threads they were to have.
pub fn finish(alloc: Global, answer: Answer) -> Result<Reply<Status>, NoMemory>
    requires { IsPlayable answer }
    ensures { IfOk result (λ reply. Completes answer reply.text reply.status) }
{
    match answer {
        Answer::Whole(reply) => Ok(reply),
        Answer::Play { job, mode, so_far } => {
            let played = mode_text(alloc, mode, &job)?;
            with_played(so_far, played)
        }
    }
}

/// The reply that the answer comes to. If agents are to play, they do so in their threads.
pub fn finish_in_threads<H: Threads + Wait + Sync, G: Gate + Sync>(
    rt: &H,
    alloc: Global,
    answer: Answer,
    gate: &G,
) -> Result<Reply<Status>, NoMemory>
    requires { IsPlayable answer }
    ensures { IfOk result (λ reply. Completes answer reply.text reply.status) }
{
    match answer {
        Answer::Whole(reply) => Ok(reply),
        Answer::Play { job, mode, so_far } => {
            let played = mode_text_in_threads(rt, alloc, mode, &job, gate)?;
            with_played(so_far, played)
        }
    }
}

/// The reply, after whose text comes what was played.
fn with_played(so_far: Reply<Status>, played: Bytes) -> Result<Reply<Status>, NoMemory>
    ensures { IfOk result (λ reply. (reply.text ≡ so_far.text ++ played)
        × (reply.status ≡ so_far.status)) }
{
    let Reply { status, mut text } = so_far;
    text.append(played.as_slice())?;
    Ok(Reply { status, text })
}

/// What is written of the agents of the job, who play on this thread.
fn mode_text(alloc: Global, mode: PlayMode, job: &Job) -> Result<Bytes, NoMemory>
    requires { SafeProtocol job.now.protocol }
    ensures { IfOk result (IsModeText mode job.now) }
{
    match mode {
        PlayMode::InThreads { report, .. } => alone_text(alloc, report, job),
        PlayMode::OverDisks => disks_text(alloc, job),
    }
}

/// What is written of the agents of the job, who play in their threads.
fn mode_text_in_threads<H: Threads + Wait + Sync, G: Gate + Sync>(
    rt: &H,
    alloc: Global,
    mode: PlayMode,
    job: &Job,
    gate: &G,
) -> Result<Bytes, NoMemory>
    requires { SafeProtocol job.now.protocol }
    ensures { IfOk result (IsModeText mode job.now) }
{
    match mode {
        PlayMode::InThreads { threads, report } => {
            threads_text(rt, alloc, threads, report, job, gate)
        }
        PlayMode::OverDisks => disks_text(alloc, job),
    }
}

/// The report on a world that the agents of the job play, each role in so many threads.
fn threads_text<H: Threads + Wait + Sync, G: Gate + Sync>(
    rt: &H,
    alloc: Global,
    threads: ThreadCount,
    report: WorldReport,
    job: &Job,
    gate: &G,
) -> Result<Bytes, NoMemory>
    requires { SafeProtocol job.now.protocol }
    ensures { IfOk result (IsPlayedText report threads job.now) }
{
    let threads = threads.threads();
    if threads == 0 {
        return alone_text(alloc, report, job);
    }
    let world = run_threads(rt, alloc, job, threads, gate)?;
    report_on(alloc, report, job, &world)
}

/// The report on a world that the agents of the job play on this thread, which is right for each
/// number of threads.
fn alone_text(alloc: Global, report: WorldReport, job: &Job) -> Result<Bytes, NoMemory>
    requires { SafeProtocol job.now.protocol }
    ensures { IfOk result (λ text. (threads : ℕ) → IsPlayedText report threads job.now text) }
{
    let world = run_one(alloc, job)?;
    report_on(alloc, report, job, &world)
}
