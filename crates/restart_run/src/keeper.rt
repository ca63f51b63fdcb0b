ghost use Rattle.std.specs.Prelude.{◌≡◌, ◌<◌, ◌++◌, ◌∷◌, [], length, true, IfErr, OnErr, OnOk};
ghost use Rattle.restart_run.specs.inner.Keeping.{HasKept, HoldsNext, IsCutOff, IsKeeper};
ghost use Rattle.restart_run.specs.inner.Keeping.{IsRefusedAt, MayAppend, refusal_of};

use super::refusal::RestartRefusal;
use agent_scripts::Job;
use bspl_io::Trouble;
use bspl_types::Key;
use durable_store::DurableStore;
use list_base::Seq;
use role_journal::Disk;
use stamped_history::Entry;
use std::alloc::Global;

/// A role's store over its disk, and whether the role was restarted.
#[derive(Drop)]
pub struct Keeper<D: Disk> {
    pub store: DurableStore<D>,
    pub restarted: bool,
}

/// The stores of all roles, in order.
pub type KeeperList<D> = Seq<Keeper<D>>;

/// Appends the entry to what the role's disk keeps. After the disk's first fault the role is
/// restarted, and the entry is appended again unless the disk kept it.
pub fn keep_next<D: Disk + Drop>(
    alloc: Global,
    job: &Job,
    keys: &[Key],
    role: u32,
    keeper: &mut Keeper<D>,
    entry: &Entry,
) -> Result<(), RestartRefusal>
    requires keys { keys.now ≡ job.now.script.keys }
    requires keeper { IsKeeper D.counts job.now role keeper.old.restarted keeper.old.store }
    requires next { MayAppend D.seen job.now role keeper.old.store entry.now }
    ensures ok { OnOk result (HasKept D.seen D.counts job.now role
        (keeper.old.store.store.entries ++ entry.now ∷ []) (length (D.seen keeper.old.store.disk))
        keeper.new.restarted keeper.new.store) }
    ensures refused { IfErr result
        (IsRefusedAt D.may_leave D.counts job.now role keeper.new.store.disk) }
    ensures cut { OnErr result (HoldsNext D.seen D.may_leave job.now role
        keeper.old.store.store.entries entry.now (length (D.seen keeper.old.store.disk))
        keeper.new.store.disk) }
{
    // law: each durable store is sound
    keeper.store.is_sound();
    match keeper.store.append_next(entry) {
        Ok(()) => Ok(()),
        Err(Trouble::NoMemory) => Err(RestartRefusal::NoMemory),
        Err(Trouble::Failed) => restart(alloc, job, keys, role, keeper, entry),
    }
}

/// Restarts the role whose disk failed while the entry was appended.
fn restart<D: Disk + Drop>(
    alloc: Global,
    job: &Job,
    keys: &[Key],
    role: u32,
    keeper: &mut Keeper<D>,
    entry: &Entry,
) -> Result<(), RestartRefusal>
    requires keys { keys.now ≡ job.now.script.keys }
    requires cut { IsCutOff D.seen D.may_leave D.counts job.now role keeper.old.restarted
        keeper.old.store entry.now }
    ensures ok { OnOk result (HasKept D.seen D.counts job.now role
        (keeper.old.store.store.entries ++ entry.now ∷ []) (length (D.seen keeper.old.store.disk))
        keeper.new.restarted keeper.new.store) }
    ensures refused { IfErr result
        (IsRefusedAt D.may_leave D.counts job.now role keeper.new.store.disk) }
    ensures cut { OnErr result (HoldsNext D.seen D.may_leave job.now role
        keeper.old.store.store.entries entry.now (length (D.seen keeper.old.store.disk))
        keeper.new.store.disk) }
{
    if keeper.restarted {
        return Err(RestartRefusal::DiskFault { role });
    }
    keeper.restarted = true;
    let acknowledged = keeper.store.store().len();
    if let Err(trouble) = keeper.store.restart(alloc, keys) {
        return Err(refusal_of(trouble, role));
    }
    if keeper.store.store().len() > acknowledged {
        return Ok(());
    }
    keep_late(job, role, &mut keeper.store, entry)
}

/// Appends the entry after a restart: a fault is a late one.
fn keep_late<D: Disk + Drop>(
    _job: &Job,
    role: u32,
    store: &mut DurableStore<D>,
    entry: &Entry,
) -> Result<(), RestartRefusal>
    requires keeper { IsKeeper D.counts _job.now role true store.old }
    requires next { MayAppend D.seen _job.now role store.old entry.now }
    ensures ok { OnOk result (HasKept D.seen D.counts _job.now role
        (store.old.store.entries ++ entry.now ∷ []) (length (D.seen store.old.disk)) true
        store.new) }
    ensures refused { IfErr result (IsRefusedAt D.may_leave D.counts _job.now role store.new.disk) }
    ensures cut { OnErr result (HoldsNext D.seen D.may_leave _job.now role store.old.store.entries
        entry.now (length (D.seen store.old.disk)) store.new.disk) }
{
    // law: each durable store is sound
    store.is_sound();
    match store.append_next(entry) {
        Ok(()) => Ok(()),
        Err(trouble) => Err(refusal_of(trouble, role)),
    }
}

/// Why the job is not played on, if the role's disk has this trouble after a restart.
fn refusal_of(trouble: Trouble, role: u32) -> RestartRefusal
    ensures { result ≡ refusal_of trouble role }
{
    match trouble {
        Trouble::Failed => RestartRefusal::DiskFault { role },
        Trouble::NoMemory => RestartRefusal::NoMemory,
    }
}
