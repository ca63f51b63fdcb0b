ghost use Rattle.std.specs.Prelude.{◌≡◌};
ghost use Rattle.durable_store.specs.State.{IsSoundStore};

use local_store::Store;
use role_journal::Disk;
use std::marker::Model;

/// A role's store whose events all stand in a journal on the disk. After a call that was cut short
/// the disk may have one event more, so the store is spent: it has to be started again.
#[derive(Drop)]
pub struct DurableStore<D: Disk> {
    pub(crate) store: Store,
    pub(crate) disk: D,
    pub(crate) spent: bool,
}

impl<D: Disk> Model for DurableStore<D> {
    ghost use Rattle.durable_store.specs.State.{DurableState, IsSoundStore};

    ghost Value = { DurableState D };

    ghost view = { λ s. record { store = s.store; disk = s.disk; spent = s.spent } };

    ghost invariant = { λ s. IsSoundStore D.seen D.may_leave D.counts
        (record { store = s.store; disk = s.disk; spent = s.spent }) };
}

impl<D: Disk> DurableStore<D> {
    /// The store of the events that were acknowledged, or that `start` found on the disk.
    pub fn store(&self) -> &Store
        ensures { result.now ≡ self.now.store }
    {
        &self.store
    }

    /// A law: each durable store is sound.
    pub fn is_sound(&self)
        ensures { IsSoundStore D.seen D.may_leave D.counts self.now }
    {
        let _store = &self.store;
    }

    /// The store and the disk.
    pub fn into_parts(self) -> (Store, D)
        ensures { result ≡ (self.store, self.disk) }
    {
        (self.store, self.disk)
    }
}
