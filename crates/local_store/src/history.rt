ghost use Rattle.std.specs.Prelude.{◌≡◌, ◌↔◌, ◌<◌, length, slice_get, IsTrue, Some};
ghost use Rattle.bspl_types.specs.History.{instance_of};
ghost use Rattle.stamped_history.specs.declared.entry.Entry.{Entry};
ghost use Rattle.local_store.specs.Outline.{outlines};
ghost use Rattle.local_store.specs.State.{acts_of, numbers, stamped_events};
ghost use Rattle.enactment_model.specs.Liveness.{IsReceived};

use super::act::Kind;
use super::row_values::{event_as, read_values};
use super::store::Store;
use bspl_types::{Event, Instance};

impl Store {
    /// The event at the index, from 0, and its stamp.
    pub fn event(&self, i: u32) -> (Event, u64)
        requires { i < length self.now.entries }
        ensures { slice_get (stamped_events self.now) i ≡ Some result }
    {
        let act = self.log.at(i);
        let row = act.row as usize;
        let carried = self.carried(act.message);
        let instance = Instance {
            message: act.message,
            key: self.keys.at(row),
            values: read_values(&self.cells, row, carried),
        };
        (event_as(act.kind, instance), act.stamp)
    }

    /// Whether the event at the index is an emission or a receipt, and of which message. No values
    /// are read for it.
    pub fn outline(&self, i: u32) -> (Kind, u32)
        requires { i < length self.now.entries }
        ensures { slice_get (outlines self.now) i ≡ Some result }
    {
        let act = self.log.at(i);
        (act.kind, act.message)
    }

    /// Whether this store has received the message of the other store's event at the index, under
    /// that event's key. No values are read for it.
    pub fn has_received(&self, other: &Store, i: u32) -> bool
        requires { i < length other.now.entries }
        ensures { (e : Entry) → slice_get other.now.entries i ≡ Some e →
            IsTrue result ↔ IsReceived (acts_of self.now) (instance_of e.event).key
            (instance_of e.event).message }
    {
        let act = other.log.at(i);
        let key = other.keys.at(act.row as usize);
        self.received(act.message, &key)
    }

    /// The number of the event at the index: of an emission its index, of a receipt its message's.
    pub fn number(&self, i: u32) -> u32
        requires { i < length self.now.entries }
        ensures { slice_get (numbers self.now) i ≡ Some result }
    {
        self.log.at(i).number
    }
}
