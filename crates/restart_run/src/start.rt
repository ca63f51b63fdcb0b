ghost use Rattle.std.specs.Prelude.{◌≡◌, ◌<◌, [], length, IfErr, IfOk};
ghost use Rattle.role_journal.specs.Counts.{after_fault, no_faults};
ghost use Rattle.restart_run.specs.Disks.{HoldsHistories, IsBlank, IsRefused, bytes_for};
ghost use Rattle.restart_run.specs.inner.Keeping.{HasKept, IsSecondStart};

use super::keeper::Keeper;
use super::refusal::RestartRefusal;
use agent_scripts::{Job, scripts_fit};
use bspl_types::Key;
use durable_store::{DurableStore, StartRefusal};
use role_journal::Disk;
use std::alloc::Global;

/// Starts the role's store on its blank disk. After a fault the role is restarted.
pub fn start_first<D: Disk + Drop>(
    alloc: Global,
    job: &Job,
    keys: &[Key],
    role: u32,
    disk: D,
) -> Result<Keeper<D>, RestartRefusal>
    requires role { role < length job.now.protocol.roles }
    requires keys { keys.now ≡ job.now.script.keys }
    requires blank { IsBlank D.seen D.may_leave D.counts (bytes_for job.now role) disk }
    ensures ok { IfOk result (λ k. HasKept D.seen D.counts job.now role [] (length (D.seen disk))
        k.restarted k.store) }
    ensures refused { IfErr result (IsRefused D.may_leave D.counts job.now) }
{
    // laws: the workload keys are few, and have a value for each key parameter
    scripts_fit();
    job.script().count();
    match DurableStore::start(alloc, job.admitted(), role, disk, keys) {
        Ok(store) => Ok(Keeper {
            store,
            restarted: false,
        }),
        Err((StartRefusal::DiskFault, disk)) => {
            let store = start_again(alloc, job, keys, role, disk)?;
            Ok(Keeper {
                store,
                restarted: true,
            })
        }
        Err((StartRefusal::NoMemory, _disk)) => Err(RestartRefusal::NoMemory),
        Err((StartRefusal::Alien { .. }, _disk)) => unreachable!(),
    }
}

/// Restarts the disk after its first fault, and starts the role's store again on what it kept. The
/// disk counts a fault after that as a late one.
fn start_again<D: Disk + Drop>(
    alloc: Global,
    job: &Job,
    keys: &[Key],
    role: u32,
    mut disk: D,
) -> Result<DurableStore<D>, RestartRefusal>
    requires role { role < length job.now.protocol.roles }
    requires keys { keys.now ≡ job.now.script.keys }
    requires fault { D.counts disk ≡ after_fault no_faults }
    requires histories { HoldsHistories D.may_leave job.now role disk }
    ensures ok { IfOk result (IsSecondStart D.seen D.may_leave D.counts job.now role disk) }
    ensures refused { IfErr result (IsRefused D.may_leave D.counts job.now) }
{
    // laws: the workload keys are few, and have a value for each key parameter
    scripts_fit();
    job.script().count();
    disk.restart();
    match DurableStore::start(alloc, job.admitted(), role, disk, keys) {
        Ok(store) => Ok(store),
        Err((StartRefusal::DiskFault, _disk)) => Err(RestartRefusal::DiskFault { role }),
        Err((StartRefusal::NoMemory, _disk)) => Err(RestartRefusal::NoMemory),
        Err((StartRefusal::Alien { .. }, _disk)) => unreachable!(),
    }
}
