ghost use Rattle.std.specs.Prelude.{◌≡◌, ◌↔◌, ◌+◌, ◌<◌, ◌≤◌, length, max, IsTrue, IfOk, OnOk};
ghost use Rattle.std.specs.Prelude.{OnErr};
ghost use Rattle.std.specs.List.{Contains};
ghost use Rattle.stamped_history.specs.Entries.{last_stamp};
ghost use Rattle.local_store.specs.Consistent.{IsConsistent};
ghost use Rattle.local_store.specs.State.{new_store, AddsKey};

use super::acts::Acts;
use super::cells::Cells;
use super::grid::Grid;
use bspl_types::{Admitted, Key, MESSAGE_LIMIT};
use key_table::KeyTable;
use list_base::NoMemory;
use std::alloc::Global;
use std::marker::Model;

/// The events of one role, and what it knows under each key that it holds (Singh 2011). A row for
/// each key has the known values and which messages were emitted or received, so no call but
/// `add_key` and `reserve` takes memory, and none goes over the history.
#[derive(Drop)]
pub struct Store {
    pub(crate) admitted: Admitted,
    pub(crate) role: u32,
    pub(crate) keys: KeyTable,
    pub(crate) cells: Cells,
    pub(crate) marks: Grid<bool>,
    pub(crate) log: Acts,
    pub(crate) clock: u64,
}

impl Model for Store {
    ghost use Rattle.local_store.specs.State.{StoreState};
    ghost use Rattle.local_store.specs.inner.Kept.{HaveRows, IsKept, rows_of, state_of};

    ghost Value = { StoreState };

    ghost view = { λ s. state_of s.admitted s.role
        (rows_of s.admitted s.keys s.cells.items s.marks.items) s.log };

    ghost invariant = { λ s. IsKept s.admitted s.role
        (rows_of s.admitted s.keys s.cells.items s.marks.items) s.log s.clock ×
        HaveRows s.admitted s.keys s.cells.width s.cells.rows s.marks.width s.marks.rows };
}

impl Store {
    /// A store of the role, which keeps a copy of the protocol.
    pub fn new(alloc: Global, a: &Admitted, role: u32) -> Result<Store, NoMemory>
        requires { role < length a.now.roles }
        ensures { IfOk result (λ s. s ≡ new_store a.now role) }
    {
        let x = a.expanded();
        Ok(Store {
            admitted: a.copy()?,
            role,
            keys: KeyTable::new(alloc),
            cells: Cells::new(alloc, x.params.len()),
            marks: Grid::new(alloc, x.messages.len()),
            log: Acts::new(alloc),
            clock: 0,
        })
    }

    /// Whose store it is.
    pub fn role(&self) -> u32
        ensures { result ≡ self.now.role }
    {
        self.role
    }

    /// Lends the store's protocol.
    pub fn admitted(&self) -> &Admitted
        ensures { result.now ≡ self.now.protocol }
    {
        &self.admitted
    }

    /// Makes the key held.
    pub fn add_key(&mut self, key: &Key) -> Result<(), NoMemory>
        requires whole { length key.now ≡ length self.old.protocol.keys }
        requires few { length self.old.keys < 4294967295 }
        ensures ok { OnOk result (AddsKey self.old key.now self.new) }
        ensures err { OnErr result (self.new ≡ self.old) }
    {
        if self.holds(key) {
            return Ok(());
        }
        let rows = self.keys.len() + 1;
        let messages = self.marks.width;
        self.cells.cover(rows)?;
        self.marks.cover(rows, &[false; MESSAGE_LIMIT][..messages])?;
        self.keys.add(key)
    }

    /// Whether the key is held.
    pub fn holds(&self, key: &Key) -> bool
        ensures { IsTrue result ↔ Contains self.now.keys key.now }
    {
        self.row_of(key).is_some()
    }

    /// The number of held keys.
    pub fn held(&self) -> u32
        ensures { result ≡ length self.now.keys }
    {
        self.keys.len() as u32
    }

    /// Makes room for this many events, unless there is more.
    pub fn reserve(&mut self, events: u32) -> Result<(), NoMemory>
        requires { length self.old.entries + events ≤ 4294967295 }
        ensures ok { OnOk result
            (self.new ≡ record self.old { spare = max self.old.spare events }) }
        ensures err { OnErr result (self.new ≡ self.old) }
    {
        self.log.reserve(events)
    }

    /// How many events the store can still take without memory.
    pub fn spare(&self) -> u32
        ensures { result ≡ self.now.spare }
    {
        self.log.spare()
    }

    /// The number of events.
    pub fn len(&self) -> u32
        ensures count { result ≡ length self.now.entries }
        ensures consistent { IsConsistent self.now }
    {
        self.log.len()
    }

    /// A law: each store is consistent.
    pub fn is_consistent(&self)
        ensures { IsConsistent self.now }
    {
        self.len();
    }

    /// The stamp of the last event, or 0.
    pub fn clock(&self) -> u64
        ensures { result ≡ last_stamp self.now.entries }
    {
        self.clock
    }
}
