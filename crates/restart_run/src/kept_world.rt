ghost use Rattle.std.specs.Prelude.{◌≡◌, ◌+◌, ◌<◌, ◌≤◌, ℕ, length, IfErr, MatchOption};
ghost use Rattle.std.specs.Prelude.{OnErr, OnOk};
ghost use Rattle.stamped_history.specs.Entries.{last_stamp};
ghost use Rattle.stamped_history.specs.Explained.{AreExplained, AreLocal, history_at};
ghost use Rattle.world_run.specs.World.{histories_of};
ghost use Rattle.restart_run.specs.Disks.{IsRefused};
ghost use Rattle.restart_run.specs.OneWorld.{HoldOneWorld, disks_of};
ghost use Rattle.restart_run.specs.inner.Midway.{AreMidway, AreWhole, IsDue, IsNotDue};

use super::entries::entry_at;
use super::keeper::{KeeperList, keep_next};
use super::refusal::RestartRefusal;
use agent_scripts::Job;
use bspl_types::Key;
use local_store::Store;
use role_journal::Disk;
use stamped_history::{Entry, local_stamps_rise};
use std::alloc::Global;
use world_run::World;

/// Keeps the histories of the world on the disks, in the order of their stamps. A receipt has a
/// higher stamp than its emission (Lamport 1978), so the disk of the sender has the emission first,
/// and however the call ends, the disks hold one world.
pub fn keep_world<D: Disk + Drop>(
    alloc: Global,
    job: &Job,
    keys: &[Key],
    world: &World,
    keepers: &mut KeeperList<D>,
) -> Result<(), RestartRefusal>
    requires keys { keys.now ≡ job.now.script.keys }
    requires local { AreLocal job.now.protocol (histories_of world.now.desks) }
    requires explained { AreExplained job.now.protocol (histories_of world.now.desks) }
    requires new { AreMidway D.seen D.may_leave D.counts job.now (histories_of world.now.desks)
        0 0 keepers.old }
    ensures ok { OnOk result (AreWhole D.seen D.may_leave D.counts job.now
        (histories_of world.now.desks) keepers.new) }
    ensures count { OnOk result (length keepers.new ≡ length job.now.protocol.roles) }
    ensures refused { IfErr result (IsRefused D.may_leave D.counts job.now) }
    ensures one_world { HoldOneWorld D.may_leave job.now.protocol (disks_of keepers.new) }
{
    // law: the stamps of a local history rise
    local_stamps_rise();
    let last = highest_stamp(job, world);
    for stamp in 0..last {
        keep_stamp(alloc, job, keys, world, stamp, keepers)?;
    }
    keep_stamp(alloc, job, keys, world, last, keepers)?;
    Ok(())
}

/// The highest stamp of the world's histories, or 0.
fn highest_stamp(job: &Job, world: &World) -> u64
    requires { AreLocal job.now.protocol (histories_of world.now.desks) }
    ensures { (role : ℕ) → role < length job.now.protocol.roles →
        last_stamp (history_at (histories_of world.now.desks) role) ≤ result }
{
    let mut highest = 0;
    for role in 0..job.admitted().expanded().roles.len() {
        highest = world.state(role as u32).store().clock().max(highest);
    }
    highest
}

/// Keeps each entry that has the stamp, role by role.
fn keep_stamp<D: Disk + Drop>(
    alloc: Global,
    job: &Job,
    keys: &[Key],
    world: &World,
    stamp: u64,
    keepers: &mut KeeperList<D>,
) -> Result<(), RestartRefusal>
    requires keys { keys.now ≡ job.now.script.keys }
    requires local { AreLocal job.now.protocol (histories_of world.now.desks) }
    requires explained { AreExplained job.now.protocol (histories_of world.now.desks) }
    requires midway { AreMidway D.seen D.may_leave D.counts job.now (histories_of world.now.desks)
        stamp 0 keepers.old }
    ensures ok { OnOk result (AreMidway D.seen D.may_leave D.counts job.now
        (histories_of world.now.desks) stamp (length keepers.new) keepers.new) }
    ensures refused { IfErr result (IsRefused D.may_leave D.counts job.now) }
    ensures one_world { OnErr result
        (HoldOneWorld D.may_leave job.now.protocol (disks_of keepers.new)) }
{
    for role in 0..keepers.len() {
        keep_due(alloc, job, keys, world, role, stamp, keepers)?;
    }
    Ok(())
}

/// Keeps the role's next entry if it has the stamp.
fn keep_due<D: Disk + Drop>(
    alloc: Global,
    job: &Job,
    keys: &[Key],
    world: &World,
    role: usize,
    stamp: u64,
    keepers: &mut KeeperList<D>,
) -> Result<(), RestartRefusal>
    requires keys { keys.now ≡ job.now.script.keys }
    requires local { AreLocal job.now.protocol (histories_of world.now.desks) }
    requires explained { AreExplained job.now.protocol (histories_of world.now.desks) }
    requires role { role < length keepers.old }
    requires midway { AreMidway D.seen D.may_leave D.counts job.now (histories_of world.now.desks)
        stamp role keepers.old }
    ensures ok { OnOk result (AreMidway D.seen D.may_leave D.counts job.now
        (histories_of world.now.desks) stamp (role + 1) keepers.new) }
    ensures refused { IfErr result (IsRefused D.may_leave D.counts job.now) }
    ensures one_world { OnErr result
        (HoldOneWorld D.may_leave job.now.protocol (disks_of keepers.new)) }
{
    // law: the stamps of a local history rise
    local_stamps_rise();
    let index = keepers.at(role).store.store().len();
    let Some(entry) = due_entry(world.state(role as u32).store(), index, stamp) else {
        return Ok(());
    };
    keep_next(alloc, job, keys, role as u32, keepers.at_mut(role), &entry)?;
    // law: each durable store is sound
    keepers.at(role).store.is_sound();
    Ok(())
}

/// The entry at the index of the history, if there is one and it has the stamp.
fn due_entry(store: &Store, index: u32, stamp: u64) -> Option<Entry>
    ensures { MatchOption result (IsNotDue store.now.entries index stamp)
        (IsDue store.now.entries index stamp) }
{
    if index >= store.len() {
        return None;
    }
    let entry = entry_at(store, index);
    if entry.stamp == stamp {
        Some(entry)
    } else {
        None
    }
}
