ghost use Rattle.std.specs.Prelude.{◌≡◌, IfOk};
ghost use Rattle.bspl_types.specs.History.{IsRun};
ghost use Rattle.enactment_model.specs.Safety.{SafeProtocol};
ghost use Rattle.verdict.specs.Right.{IsRight};
ghost use Rattle.world_run.specs.Finished.{IsFinished};
ghost use Rattle.world_run.specs.Settling.{HaveRunWhole};
ghost use Rattle.page_sections.specs.WorldSection.{unplayed_section};
ghost use Rattle.more_commands.specs.PageAnswer.{ShowsAgents, ShowsPlayed, ShowsReplay};
ghost use Rattle.more_commands.specs.inner.Section.{IsSection};

use agent_scripts::Job;
use bspl_types::{Admitted, Event};
use list_base::{Bytes, NoMemory};
use page_sections::{push_played, push_run, push_unplayed, push_world};
use report::replay_text;
use stamped_history::merged_runs_are_one;
use std::alloc::Global;
use verdict::Safety;
use world_run::{World, merge, run_one};

/// The section of the run, with what `replay` reports on it.
pub(crate) fn run_section(
    alloc: Global,
    protocol: &Admitted,
    run: &[Event],
) -> Result<Bytes, NoMemory>
    requires { IsRun protocol.now run.now }
    ensures { IfOk result (IsSection (ShowsReplay protocol.now run.now)) }
{
    let replay = replay_text(alloc, protocol, run)?;
    let mut text = Bytes::new(alloc);
    push_run(alloc, &mut text, protocol, run, replay.text.as_slice())?;
    Ok(text)
}

/// The section of the agents: they play if the protocol is found safe.
pub(crate) fn agents_section(alloc: Global, job: &Job, safety: &Safety) -> Result<Bytes, NoMemory>
    requires { IsRight job.now.protocol 10000 safety.now }
    ensures { IfOk result (IsSection (ShowsAgents job.now safety.now)) }
{
    match safety {
        Safety::Safe(_) => played_section(alloc, job),
        Safety::Unsafe { .. } => unplayed(alloc),
        Safety::Undecided(_) => unplayed(alloc),
    }
}

/// The section that says that no agents play.
fn unplayed(alloc: Global) -> Result<Bytes, NoMemory>
    ensures { IfOk result (IsSection (λ shown. shown ≡ unplayed_section)) }
{
    let mut text = Bytes::new(alloc);
    push_unplayed(&mut text)?;
    Ok(text)
}

/// The section of the world that the agents of the job play on this thread.
fn played_section(alloc: Global, job: &Job) -> Result<Bytes, NoMemory>
    requires { SafeProtocol job.now.protocol }
    ensures { IfOk result (IsSection (ShowsPlayed job.now)) }
{
    let world = run_one(alloc, job)?;
    world_section(alloc, job, &world)
}

/// The section of a world that has been played to its end.
fn world_section(alloc: Global, job: &Job, world: &World) -> Result<Bytes, NoMemory>
    requires finished { IsFinished job.now world.now.desks }
    requires course { HaveRunWhole job.now world.now.desks }
    ensures { IfOk result (IsSection (ShowsPlayed job.now)) }
{
    // law: histories merge into one run at most
    merged_runs_are_one();
    let run = merge(alloc, world)?;
    let x = job.admitted().expanded();
    let mut text = Bytes::new(alloc);
    push_world(alloc, &mut text, x, job.script(), world)?;
    push_played(alloc, &mut text, job.admitted(), run.as_slice())?;
    Ok(text)
}
