ghost use Rattle.std.specs.Prelude.{◌≡◌, ◌≤◌, length, IfOk};
ghost use Rattle.std.specs.List.{All};
ghost use Rattle.role_journal.specs.Recording.{Suits, content_of};
ghost use Rattle.role_journal.specs.Stop.{counts_of};
ghost use Rattle.restart_run.specs.Disks.{AreBlank};
ghost use Rattle.restart_run.specs.StopDisks.{AreStopDisks};

use super::roles::DiskList;
use super::size::bytes_for;
use agent_scripts::Job;
use list_base::{NoMemory, Seq};
use role_journal::StopDisk;
use std::alloc::Global;

/// A disk for each role of the job, with a place for each event that the role can have. Each stops
/// at the call of its number, and a restart leaves the byte where nothing was synced.
pub fn stop_disks(
    alloc: Global,
    job: &Job,
    stops: &[u64],
    fill: u8,
) -> Result<DiskList<StopDisk>, NoMemory>
    requires count { length stops.now ≡ length job.now.protocol.roles }
    requires stops { All (λ stop. 1 ≤ stop) stops.now }
    ensures stop { IfOk result (AreStopDisks job.now stops.now fill) }
    ensures blank { IfOk result (AreBlank (λ d. (content_of d.recording).seen)
        (λ d image. Suits d.recording image) counts_of job.now) }
{
    let mut disks = Seq::new(alloc);
    for role in 0..stops.len() {
        let size = bytes_for(job, role as u32);
        let disk = StopDisk::new(alloc, size, stops[role], fill)?;
        disks.push(disk)?;
    }
    Ok(disks)
}
