ghost use Rattle.std.specs.Prelude.{◌≡◌, length, IfErr, IfOk};
ghost use Rattle.enactment_model.specs.Safety.{SafeProtocol};
ghost use Rattle.restart_run.specs.Disks.{AreBlank, IsRefused};
ghost use Rattle.restart_run.specs.Restarted.{IsRestarted};

use super::kept_world::keep_world;
use super::keys::workload_keys;
use super::refusal::RestartRefusal;
use super::roles::{DiskList, KeptRoles, start_all, take_apart};
use adapter::kept_events_are_few;
use agent_scripts::Job;
use list_base::Seq;
use role_journal::Disk;
use std::alloc::Global;
use world_run::{World, run_one};

/// What a job leaves that was played over disks: a world of the stores that the disks keep, how
/// many roles were restarted, and the disks.
#[derive(Drop)]
pub struct Restarted<D> {
    pub world: World,
    pub restarts: u64,
    pub disks: DiskList<D>,
}

/// Runs all roles on one thread, as `run_one` does, and keeps each role's history on its disk, as
/// `keep_world` does. After the first fault of its disk a role is restarted, and its store started
/// again on what the disk kept.
pub fn run_restarts<D: Disk + Drop>(
    alloc: Global,
    job: &Job,
    mut disks: DiskList<D>,
) -> Result<Restarted<D>, RestartRefusal>
    requires safe { SafeProtocol job.now.protocol }
    requires count { length disks ≡ length job.now.protocol.roles }
    requires blank { AreBlank D.seen D.may_leave D.counts job.now disks }
    ensures ok { IfOk result
        (λ r. IsRestarted D.may_leave D.counts job.now r.world r.restarts r.disks) }
    ensures refused { IfErr result (IsRefused D.may_leave D.counts job.now) }
{
    // law: a kept desk has at most one event for each workload key and message of its role
    kept_events_are_few();
    let world = run_one(alloc, job)?;
    let keys = workload_keys(alloc, job)?;
    let mut keepers = Seq::new(alloc);
    start_all(alloc, job, keys.as_slice(), &mut disks, &mut keepers)?;
    keep_world(alloc, job, keys.as_slice(), &world, &mut keepers)?;
    let mut kept = KeptRoles::new(alloc);
    take_apart(alloc, job, &world, &mut keepers, &mut kept)?;
    let KeptRoles {
        desks,
        disks: kept_disks,
        restarts,
    } = kept;
    Ok(Restarted {
        world: World::of(desks),
        restarts,
        disks: kept_disks,
    })
}
