ghost use Rattle.std.specs.Prelude.{◌≡◌, ◌<◌, true, OnErr, OnOk};
ghost use Rattle.bspl_io.specs.Faults.{last_count};
ghost use Rattle.durable_store.specs.Restart.{IsRestartCount, IsStartedAgain, StaysSpent};

use super::durable::DurableStore;
use super::laws::{histories_are_native, journals_are_one};
use super::refusals::StartRefusal;
use super::restoring::restore;
use bspl_io::Trouble;
use bspl_types::Key;
use role_journal::Disk;
use std::alloc::Global;

impl<D: Disk> DurableStore<D> {
    /// Restarts the disk after a call that was cut short, and starts the store again on what the
    /// disk kept. An error leaves the store as it was, and spent.
    pub fn restart(&mut self, alloc: Global, keys: &[Key]) -> Result<(), Trouble>
        requires spent { self.old.spent ≡ true }
        requires keys { keys.now ≡ self.old.store.keys }
        requires countable { (D.counts self.old.disk).faults < last_count }
        ensures ok { OnOk result (IsStartedAgain D.seen D.may_leave D.counts self.old self.new) }
        ensures err { OnErr result (StaysSpent D.seen D.may_leave self.old self.new) }
        ensures counts { IsRestartCount result (D.counts self.old.disk) (D.counts self.new.disk) }
    {
        // laws: no place of a history is alien, and an image is a journal of one list of entries
        histories_are_native();
        journals_are_one();
        // laws: a store is consistent, and holds few keys
        self.store.is_consistent();
        self.store.held();
        self.disk.restart();
        match restore(
            alloc,
            self.store.admitted(),
            self.store.role(),
            &mut self.disk,
            keys,
        ) {
            Ok(store) => {
                self.store = store;
                self.spent = false;
                Ok(())
            }
            Err(StartRefusal::DiskFault) => Err(Trouble::Failed),
            Err(StartRefusal::NoMemory) => Err(Trouble::NoMemory),
            Err(StartRefusal::Alien { .. }) => unreachable!(),
        }
    }
}
