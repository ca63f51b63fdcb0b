ghost use Rattle.std.specs.Prelude.{List, IfOk};
ghost use Rattle.agent_scripts.specs.Refusal.{IsScriptFor};
ghost use Rattle.bspl_types.specs.declared.event.Event.{Event};
ghost use Rattle.stamped_history.specs.Explained.{AreLocal};
ghost use Rattle.world_run.specs.World.{AreDesksOf, HasHistories, histories_of};
ghost use Rattle.agent_commands.specs.PlayedText.{ReportsOn};

use agent_scripts::Job;
use bspl_types::{Bytes, NoMemory};
use report::{summary_text, world_text};
use std::alloc::Global;
use world_run::World;

/// What is written of a world.
#[derive(Clone, Copy, Debug, PartialEq, Eq)]
pub enum WorldReport {
    /// A line for each message, and one for each workload key.
    Table,
    /// How many workload keys, emissions, receptions and known values there are.
    Summary,
}

/// The report on a world of the job.
pub(crate) fn report_on(
    alloc: Global,
    report: WorldReport,
    job: &Job,
    world: &World,
) -> Result<Bytes, NoMemory>
    requires { AreDesksOf job.now.protocol world.now.desks }
    ensures { IfOk result (λ text. (run : List Event) →
        AreLocal job.now.protocol (histories_of world.now.desks) →
        HasHistories job.now.protocol world.now.desks run →
        ReportsOn report job.now.protocol job.now.script run text) }
{
    match report {
        WorldReport::Table => world_text(alloc, job.admitted(), job.script(), world),
        WorldReport::Summary => summary_text(alloc, job.admitted(), job.script(), world),
    }
}
