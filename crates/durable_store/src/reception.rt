ghost use Rattle.std.specs.Prelude.{◌≡◌, ◌<◌, IfOk, IsErrOf};
ghost use Rattle.std.specs.List.{Contains};
ghost use Rattle.bspl_types.specs.Expansion.{message_of};
ghost use Rattle.bspl_types.specs.Instance.{Fits};
ghost use Rattle.stamped_history.specs.Entries.{clock_limit, last_stamp};
ghost use Rattle.role_journal.specs.Counts.{Costs};
ghost use Rattle.local_store.specs.Reception.{IsReceipt};
ghost use Rattle.durable_store.specs.Calls.{EndsWith};
ghost use Rattle.durable_store.specs.Reception.{IsReceiveAnswer, receipt_entry};

use super::durable::DurableStore;
use super::refusals::ReceiveRefusal;
use bspl_io::Trouble;
use bspl_types::{Event, Stamped};
use local_store::{Receipt, Store, next_stays_local};
use role_journal::Disk;
use stamped_history::Entry;

impl<D: Disk> DurableStore<D> {
    /// Takes a message in as `Store::receive` does, and acknowledges a fresh receipt once the
    /// journal has it. A fault of the disk, or out of memory, leaves the store without the receipt,
    /// and spent; the disk may have it, and `start` then gives it back.
    pub fn receive(&mut self, m: &Stamped) -> Result<Receipt, ReceiveRefusal>
        requires fits { Fits self.old.store.protocol m.now.instance }
        requires own { (message_of self.old.store.protocol m.now.instance.message).receiver ≡
            self.old.store.role }
        requires held { Contains self.old.store.keys m.now.instance.key }
        requires clock { last_stamp self.old.store.entries < clock_limit }
        requires stamp { m.now.stamp < clock_limit }
        ensures ok { IfOk result (λ r. IsReceipt self.old.store m.now r self.new.store) }
        ensures ends { EndsWith D.seen D.may_leave D.clock D.left_since
            (IsReceiveAnswer (D.may_lack self.new.disk) self.old m.now result) self.old self.new }
        ensures costs { Costs D.clock D.counts 4 (IsErrOf result ReceiveRefusal.DiskFault)
            self.old.disk self.new.disk }
    {
        // laws: a store is consistent, and stays so with a fresh receipt
        self.store.is_consistent();
        next_stays_local();
        if self.spent {
            return Err(ReceiveRefusal::Spent);
        }
        if self.store.spare() == 0 {
            return Err(ReceiveRefusal::Full);
        }
        match self.store.foreseen(m) {
            Receipt::Fresh => {
                let entry = entry_of(&self.store, m);
                self.append_next(&entry)?;
                Ok(Receipt::Fresh)
            }
            receipt => Ok(receipt),
        }
    }
}

/// The entry of the message's receipt.
fn entry_of(store: &Store, m: &Stamped) -> Entry
    requires clock { last_stamp store.now.entries < clock_limit }
    requires stamp { m.now.stamp < clock_limit }
    ensures { result ≡ receipt_entry store.now m.now }
{
    Entry {
        event: Event::Receive(m.instance),
        stamp: store.clock().max(m.stamp) + 1,
        number: m.number,
    }
}

impl From<Trouble> for ReceiveRefusal {
    ghost use Rattle.std.specs.Prelude.{◌≡◌};
    ghost use Rattle.durable_store.specs.Troubles.{receive_refusal};

    ghost from_gives = { λ trouble refusal. refusal ≡ receive_refusal trouble };

    fn from(trouble: Trouble) -> ReceiveRefusal {
        match trouble {
            Trouble::Failed => ReceiveRefusal::DiskFault,
            Trouble::NoMemory => ReceiveRefusal::NoMemory,
        }
    }
}
