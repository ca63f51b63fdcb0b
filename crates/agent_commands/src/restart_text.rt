ghost use Rattle.std.specs.Prelude.{◌≡◌, ◌++◌, IfOk, OnOk};
ghost use Rattle.enactment_model.specs.Safety.{SafeProtocol};
ghost use Rattle.report.specs.Summary.{count_line};
ghost use Rattle.agent_commands.specs.RestartedText.{IsRestartedText};

use super::restart_disks::play_over_disks;
use super::wording::RESTARTS;
use super::world_report::{WorldReport, report_on};
use agent_scripts::Job;
use bspl_types::{Bytes, NoMemory};
use std::alloc::Global;

/// The report on a world that the agents of the job play over disks, and how many roles were
/// restarted.
pub(crate) fn disks_text(alloc: Global, job: &Job) -> Result<Bytes, NoMemory>
    requires { SafeProtocol job.now.protocol }
    ensures { IfOk result (IsRestartedText job.now) }
{
    let played = play_over_disks(alloc, job)?;
    let mut text = report_on(alloc, WorldReport::Table, job, &played.world)?;
    push_restarts(alloc, &mut text, played.restarts)?;
    Ok(text)
}

/// Appends the line that says how many roles were restarted.
fn push_restarts(alloc: Global, text: &mut Bytes, restarts: u64) -> Result<(), NoMemory>
    ensures { OnOk result (text.new ≡ text.old ++ count_line (RESTARTS.now) restarts) }
{
    text.append(RESTARTS)?;
    text.push(b' ')?;
    text.append(restarts.to_string(alloc)?.as_bytes())?;
    text.push(b'\n')
}
