ghost use Rattle.std.specs.Prelude.{◌≡◌, ◌<◌, ◌≤◌, List, IfErr, IfOk, OnOk, length};
ghost use Rattle.std.specs.List.{All};
ghost use Rattle.stamped_history.specs.declared.entry.Entry.{Entry};
ghost use Rattle.bspl_io.specs.Faults.{last_count};
ghost use Rattle.role_journal.specs.Journal.{IsJournal, places};
ghost use Rattle.durable_store.specs.History.{IsHistory};
ghost use Rattle.durable_store.specs.Start.{IsKeptAsItWas, IsStartAnswer, IsStarted};
ghost use Rattle.durable_store.specs.Start.{IsStartRefusal, Stands, disk_of, start_calls};

use super::durable::DurableStore;
use super::laws::{histories_are_native, journals_are_one};
use super::refusals::StartRefusal;
use super::restoring::restore;
use bspl_types::{Admitted, Key};
use role_journal::Disk;
use std::alloc::Global;

impl<D: Disk> DurableStore<D> {
    /// Starts a store of the role from a disk that may have crashed: it syncs the disk, and reads
    /// the entries up to the first closed place and the gates behind it. A refusal hands the disk
    /// back.
    pub fn start(
        alloc: Global,
        a: &Admitted,
        role: u32,
        mut disk: D,
        keys: &[Key],
    ) -> Result<DurableStore<D>, (StartRefusal, D)>
        requires role { role < length a.now.roles }
        requires whole { All (λ key. length key ≡ length a.now.keys) keys.now }
        requires few { length keys.now ≤ 4294967295 }
        requires countable { (D.counts disk).faults < last_count }
        ensures ok { IfOk result (IsStarted D.seen D.may_leave D.counts a.now role keys.now) }
        ensures refused { IfErr result (λ e. IsStartRefusal a.now role keys.now (D.seen disk)
            (D.counts disk) (D.counts e.1) e.0) }
        ensures still { OnOk result (D.counts (disk_of result) ≡ D.counts disk) }
        ensures kept { IsKeptAsItWas D.seen D.may_leave D.clock D.left_since
            (start_calls (places (length (D.seen disk))) result) disk (disk_of result) }
        ensures answer { IsStartAnswer D.seen D.may_leave D.counts a.now role keys.now
            (D.seen disk) result }
        ensures stands { (entries : List Entry) → IsHistory a.now role keys.now entries →
            IsJournal entries (D.seen disk) → Stands entries result }
    {
        // law: in a journal of a history no place is alien
        histories_are_native();
        // law: an image is a journal of one list of entries at most
        journals_are_one();
        // law: the protocol is admitted
        a.is_admitted();
        match restore(alloc, a, role, &mut disk, keys) {
            Ok(store) => Ok(DurableStore {
                store,
                disk,
                spent: false,
            }),
            Err(refusal) => Err((refusal, disk)),
        }
    }
}
