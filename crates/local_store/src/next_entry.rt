ghost use Rattle.std.specs.Prelude.{◌≡◌, ◌↔◌, ◌+◌, ◌<◌, ◌++◌, [], ◌∷◌, length, slice_get};
ghost use Rattle.std.specs.Prelude.{IsTrue, Some};
ghost use Rattle.std.specs.List.{Contains};
ghost use Rattle.bspl_types.specs.Expansion.{message_of};
ghost use Rattle.bspl_types.specs.History.{instance_of, role_of};
ghost use Rattle.bspl_types.specs.Instance.{Fits};
ghost use Rattle.stamped_history.specs.Local.{IsLocal, MayEmit, MayFollowAs, MayReceive};
ghost use Rattle.local_store.specs.Reception.{AllAgree, IsForeseen};
ghost use Rattle.local_store.specs.State.{acts_of, with_entry};
ghost use Rattle.local_store.specs.inner.Acts.{event_as};

use super::act::Kind;
use super::receipt::Receipt;
use super::store::Store;
use bspl_types::{Event, Instance, Stamped};
use role_knowledge::answers_once;
use stamped_history::Entry;

/// What is asked of a store before an event comes that is written down elsewhere first.
impl Store {
    /// What `receive` would answer to the message.
    pub fn foreseen(&self, m: &Stamped) -> Receipt
        requires fits { Fits self.now.protocol m.now.instance }
        requires own { (message_of self.now.protocol m.now.instance.message).receiver ≡
            self.now.role }
        requires held { Contains self.now.keys m.now.instance.key }
        ensures { IsForeseen self.now m.now result }
    {
        let row = self.held_row(&m.instance.key);
        if let Some(differs) = self.difference_at(row, &m.instance) {
            return differs;
        }
        if self.has_event(row, m.instance.message) {
            return Receipt::Repeat;
        }
        Receipt::Fresh
    }

    /// Whether the history stays local with the entry as its next one.
    pub fn may_come(&self, entry: &Entry) -> bool
        requires fits { Fits self.now.protocol (instance_of entry.now.event) }
        requires held { Contains self.now.keys (instance_of entry.now.event).key }
        ensures { IsTrue result ↔
            IsLocal self.now.protocol self.now.role (self.now.entries ++ entry.now ∷ []) }
    {
        // law: an event makes one value of a parameter known
        answers_once();
        let instance = entry.event.instance();
        let row = self.held_row(&instance.key);
        let role = entry.event.role(self.admitted().expanded());
        if role != self.role() {
            return false;
        }
        if let Some(_) = self.difference_at(row, instance) {
            return false;
        }
        self.follows(row, entry)
    }

    /// Appends an entry with which the history stays local.
    pub fn add_entry(&mut self, entry: &Entry)
        requires held { Contains self.old.keys (instance_of entry.now.event).key }
        requires local { IsLocal self.old.protocol self.old.role
            (self.old.entries ++ entry.now ∷ []) }
        requires spare { 0 < self.old.spare }
        ensures { self.new ≡
            with_entry self.old entry.now.event entry.now.stamp entry.now.number }
    {
        let instance = entry.event.instance();
        let row = self.held_row(&instance.key);
        self.append(
            kind_of(&entry.event),
            row,
            instance,
            entry.stamp,
            entry.number,
        );
    }

    /// Whether the entry may follow the history. Its values are those that are known.
    fn follows(&self, row: usize, entry: &Entry) -> bool
        requires row { slice_get self.now.keys row ≡ Some (instance_of entry.now.event).key }
        requires fits { Fits self.now.protocol (instance_of entry.now.event) }
        requires own { role_of self.now.protocol entry.now.event ≡ self.now.role }
        requires agree { AllAgree self.now.protocol (acts_of self.now)
            (instance_of entry.now.event) }
        ensures { IsTrue result ↔ MayFollowAs self.now.protocol self.now.entries
            entry.now.event entry.now.stamp entry.now.number }
    {
        match &entry.event {
            Event::Emit(i) => self.emission_follows(row, i, entry.stamp, entry.number),
            Event::Receive(i) => self.receipt_follows(row, i, entry.stamp),
        }
    }

    /// Whether the emission may follow. Its values are those that are known.
    fn emission_follows(&self, row: usize, i: &Instance, stamp: u64, number: u32) -> bool
        requires row { slice_get self.now.keys row ≡ Some i.now.key }
        requires known { i.now.message < length self.now.protocol.messages }
        requires agree { AllAgree self.now.protocol (acts_of self.now) i.now }
        ensures { IsTrue result ↔
            MayEmit self.now.protocol self.now.entries i.now stamp number }
    {
        if let Some(_) = self.block_at(row, i.message) {
            return false;
        }
        if number != self.len() {
            return false;
        }
        is_next(self.clock(), stamp)
    }

    /// Whether the receipt may follow. Its values are those that are known.
    fn receipt_follows(&self, row: usize, i: &Instance, stamp: u64) -> bool
        requires row { slice_get self.now.keys row ≡ Some i.now.key }
        requires fits { Fits self.now.protocol i.now }
        requires own { (message_of self.now.protocol i.now.message).receiver ≡ self.now.role }
        requires agree { AllAgree self.now.protocol (acts_of self.now) i.now }
        ensures { IsTrue result ↔ MayReceive self.now.entries i.now stamp }
    {
        // law: the store is consistent
        self.is_consistent();
        if self.has_event(row, i.message) {
            return false;
        }
        is_later(self.clock(), stamp)
    }
}

/// Whether the stamp is the one after the clock.
fn is_next(clock: u64, stamp: u64) -> bool
    ensures { IsTrue result ↔ (stamp ≡ clock + 1) }
{
    clock < stamp && stamp - clock == 1
}

/// Whether the stamp is after the clock.
fn is_later(clock: u64, stamp: u64) -> bool
    ensures { IsTrue result ↔ (clock < stamp) }
{
    clock < stamp
}

/// Which of the two the event is.
fn kind_of(event: &Event) -> Kind
    ensures { event_as result (instance_of event.now) ≡ event.now }
{
    match event {
        Event::Emit(_) => Kind::Emitted,
        Event::Receive(_) => Kind::Received,
    }
}
