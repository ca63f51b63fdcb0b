ghost use Rattle.std.specs.Prelude.{◌≡◌, ◌↔◌, ◌<◌, length, slice_get, Some, IsTrue, MatchOption};
ghost use Rattle.std.specs.List.{Contains};
ghost use Rattle.bspl_types.specs.Knowledge.{CanEmit, IsKnown, Knows};
ghost use Rattle.enactment_model.specs.Liveness.{IsEmitted, IsReceived};
ghost use Rattle.local_store.specs.State.{AreIndices, acts_of, key_at};
ghost use Rattle.local_store.specs.inner.Kept.{HasEvent, IsOfRole, IsSound};

use super::act::Kind;
use super::store::Store;
use bspl_types::{Key, Value};

impl Store {
    /// The value that the role knows of the parameter under the key.
    pub fn value(&self, key: &Key, param: u32) -> Option<Value>
        ensures { MatchOption result
            (¬ IsKnown self.now.protocol (acts_of self.now) key.now param)
            (Knows self.now.protocol (acts_of self.now) key.now param) }
    {
        let Some(row) = self.row_of(key) else {
            return None;
        };
        if param as usize >= self.cells.width() {
            return None;
        }
        self.known_at(row, param)
    }

    /// Whether the message was emitted under the key.
    pub fn emitted(&self, message: u32, key: &Key) -> bool
        ensures { IsTrue result ↔ IsEmitted (acts_of self.now) key.now message }
    {
        self.is_of_role(Kind::Emitted, message) && self.happened(message, key)
    }

    /// The index of the key, from 0, if it is held: the row by which other calls know it.
    pub fn find(&self, key: &Key) -> Option<usize>
        ensures { MatchOption result (¬ Contains self.now.keys key.now)
            (λ row. slice_get self.now.keys row ≡ Some key.now) }
    {
        self.row_of(key)
    }

    /// The index of a held key, from 0: the row by which other calls know it. The guess is looked at
    /// first, so a right one saves the search.
    pub fn row_near(&self, key: &Key, guess: usize) -> usize
        requires { Contains self.now.keys key.now }
        ensures row { slice_get self.now.keys result ≡ Some key.now }
        ensures within { result < length self.now.keys }
        ensures key { key_at self.now result ≡ key.now }
    {
        self.near_row(key, guess)
    }

    /// The key of the row.
    pub fn key_at(&self, row: usize) -> Key
        requires { row < length self.now.keys }
        ensures { slice_get self.now.keys row ≡ Some result }
    {
        self.keys.at(row)
    }

    /// Whether the message was emitted under the row's key.
    pub fn emitted_at(&self, row: usize, message: u32) -> bool
        requires { row < length self.now.keys }
        ensures { IsTrue result ↔
            IsEmitted (acts_of self.now) (key_at self.now row) message }
    {
        self.is_of_role(Kind::Emitted, message) && self.has_event(row, message)
    }

    /// Whether the message can be emitted under the row's key.
    pub fn can_emit_at(&self, row: usize, message: u32) -> bool
        requires { AreIndices self.now row message }
        ensures { IsTrue result ↔
            CanEmit self.now.protocol (acts_of self.now) message (key_at self.now row) }
    {
        self.block_at(row, message).is_none()
    }

    /// Whether the message was received under the key.
    pub fn received(&self, message: u32, key: &Key) -> bool
        ensures { IsTrue result ↔ IsReceived (acts_of self.now) key.now message }
    {
        self.is_of_role(Kind::Received, message) && self.happened(message, key)
    }

    /// Whether the message exists, and the role does this with it.
    fn is_of_role(&self, kind: Kind, message: u32) -> bool
        ensures exact { IsTrue result ↔ IsOfRole self.now.protocol self.now.role kind message }
        ensures sound { IsSound self.now }
    {
        let messages = &self.admitted.expanded().messages;
        if message as usize >= messages.len() {
            return false;
        }
        let schema = messages.at(message as usize);
        match kind {
            Kind::Emitted => schema.sender == self.role,
            Kind::Received => schema.receiver == self.role,
        }
    }

    /// Whether there is an event of the message under the key.
    fn happened(&self, message: u32, key: &Key) -> bool
        requires { message < length self.now.protocol.messages }
        ensures { IsTrue result ↔ HasEvent (acts_of self.now) key.now message }
    {
        match self.row_of(key) {
            None => false,
            Some(row) => self.has_event(row, message),
        }
    }
}
