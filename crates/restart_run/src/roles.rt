ghost use Rattle.std.specs.Prelude.{◌≡◌, ◌+◌, ◌<◌, ◌≤◌, [], length, IfErr, IfNone, IfSome, OnOk};
ghost use Rattle.bspl_types.specs.Limits.{role_limit};
ghost use Rattle.world_run.specs.World.{histories_of};
ghost use Rattle.restart_run.specs.Disks.{AreBlank, IsBlank, IsRefused, bytes_for};
ghost use Rattle.restart_run.specs.inner.Midway.{AreNewKeepers, AreWhole};
ghost use Rattle.restart_run.specs.inner.Roles.{AddsRole, AreKeptTo};

use super::keeper::{Keeper, KeeperList};
use super::refusal::RestartRefusal;
use super::start::start_first;
use adapter::Desk;
use agent_scripts::Job;
use bspl_types::Key;
use list_base::{NoMemory, Seq};
use reorder_net::Inbox;
use role_journal::Disk;
use std::alloc::Global;
use world_run::{DeskList, World};

/// Disks, in order of their roles.
pub type DiskList<D> = Seq<D>;

/// What is kept of the first roles: their desks and disks, and how many of them were restarted.
#[derive(Drop)]
pub struct KeptRoles<D> {
    pub desks: DeskList,
    pub disks: DiskList<D>,
    pub restarts: u64,
}

impl<D: Disk + Drop> KeptRoles<D> {
    /// Nothing is kept yet.
    pub fn new(alloc: Global) -> KeptRoles<D>
        ensures { result ≡ record { desks = []; disks = []; restarts = 0 } }
    {
        KeptRoles {
            desks: Seq::new(alloc),
            disks: Seq::new(alloc),
            restarts: 0,
        }
    }

    /// Adds what is kept of the next role. Its desk has an empty inbox.
    fn add(&mut self, alloc: Global, keeper: Keeper<D>) -> Result<(), NoMemory>
        requires { self.old.restarts < role_limit }
        ensures { OnOk result (AddsRole keeper.restarted keeper.store self.old self.new) }
    {
        let Keeper { store, restarted } = keeper;
        let (store, disk) = store.into_parts();
        self.desks.push(Desk::of(store, Inbox::new(alloc)))?;
        self.disks.push(disk)?;
        if restarted {
            self.restarts += 1;
        }
        Ok(())
    }
}

/// Starts a store of each of the first roles, one on each of the disks.
pub fn start_all<D: Disk + Drop>(
    alloc: Global,
    job: &Job,
    keys: &[Key],
    disks: &mut DiskList<D>,
    keepers: &mut KeeperList<D>,
) -> Result<(), RestartRefusal>
    requires keys { keys.now ≡ job.now.script.keys }
    requires none { keepers.old ≡ [] }
    requires few { length disks.old ≤ length job.now.protocol.roles }
    requires blank { AreBlank D.seen D.may_leave D.counts job.now disks.old }
    ensures ok { OnOk result (AreNewKeepers D.seen D.may_leave D.counts job.now (length disks.old)
        keepers.new) }
    ensures refused { IfErr result (IsRefused D.may_leave D.counts job.now) }
{
    let Some(disk) = last_disk(job, disks) else {
        return Ok(());
    };
    let role = disks.len() as u32;
    start_all(alloc, job, keys, disks, keepers)?;
    let keeper = start_first(alloc, job, keys, role, disk)?;
    // law: each durable store is sound
    keeper.store.is_sound();
    keepers.push(keeper)?;
    Ok(())
}

/// Takes the first roles' stores apart, each of which has its history of the world.
pub fn take_apart<D: Disk + Drop>(
    alloc: Global,
    job: &Job,
    world: &World,
    keepers: &mut KeeperList<D>,
    kept: &mut KeptRoles<D>,
) -> Result<(), NoMemory>
    requires few { length keepers.old ≤ length job.now.protocol.roles }
    requires many { length keepers.old ≤ length world.now.desks }
    requires whole { AreWhole D.seen D.may_leave D.counts job.now (histories_of world.now.desks)
        keepers.old }
    requires none { kept.old ≡ record { desks = []; disks = []; restarts = 0 } }
    ensures { OnOk result (AreKeptTo D.may_leave D.counts job.now (histories_of world.now.desks)
        (length keepers.old) kept.new) }
{
    let Some(keeper) = keepers.pop() else {
        return Ok(());
    };
    take_apart(alloc, job, world, keepers, kept)?;
    kept.add(alloc, keeper)?;
    Ok(())
}

/// Takes the disk of the last role out.
fn last_disk<D: Disk>(_job: &Job, disks: &mut DiskList<D>) -> Option<D>
    requires { AreBlank D.seen D.may_leave D.counts _job.now disks.old }
    ensures some { IfSome result (λ disk. length disks.old ≡ length disks.new + 1) }
    ensures blank { IfSome result (λ disk. IsBlank D.seen D.may_leave D.counts
        (bytes_for _job.now (length disks.new)) disk) }
    ensures rest { AreBlank D.seen D.may_leave D.counts _job.now disks.new }
    ensures none { IfNone result (disks.old ≡ []) }
{
    disks.pop()
}
