ghost use Rattle.std.specs.Prelude.{◌≡◌, ◌∷◌, ◌++◌, [], IsErrOf};
ghost use Rattle.std.specs.List.{Contains};
ghost use Rattle.bspl_types.specs.History.{instance_of};
ghost use Rattle.stamped_history.specs.Local.{IsLocal};
ghost use Rattle.role_journal.specs.Counts.{Costs};
ghost use Rattle.durable_store.specs.Calls.{Ends, HasRoom, appended_as};

use super::durable::DurableStore;
use bspl_io::Trouble;
use role_journal::{Disk, append};
use stamped_history::Entry;

impl<D: Disk> DurableStore<D> {
    /// Appends an entry with which the history stays local, as `Store::add_entry` does, once the
    /// journal has it. An error leaves the store as it was, and spent: whether the journal has the
    /// entry is not known.
    pub fn append_next(&mut self, entry: &Entry) -> Result<(), Trouble>
        requires room { HasRoom self.old }
        requires local { IsLocal self.old.store.protocol self.old.store.role
            (self.old.store.entries ++ entry.now ∷ []) }
        requires held { Contains self.old.store.keys (instance_of entry.now.event).key }
        ensures ends { Ends D.seen D.may_leave D.clock D.left_since
            (appended_as result entry.now) self.old self.new }
        ensures costs { Costs D.clock D.counts 4 (IsErrOf result Trouble.Failed)
            self.old.disk self.new.disk }
        ensures memory { IsErrOf result Trouble.NoMemory → D.may_lack self.new.disk }
    {
        self.spent = true;
        append(&mut self.disk, self.store.len(), entry)?;
        self.store.add_entry(entry);
        self.spent = false;
        Ok(())
    }
}
