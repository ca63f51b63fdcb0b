ghost use Rattle.std.specs.Prelude.{◌≡◌, ◌↔◌, ◌<◌, ◌≤◌, length, slice_get, Some, IsTrue};
ghost use Rattle.std.specs.Prelude.{IfSome, IsNone, MatchOption};
ghost use Rattle.std.specs.List.{All, Contains};
ghost use Rattle.bspl_types.specs.Expansion.{message_of};
ghost use Rattle.bspl_types.specs.Instance.{Fits};
ghost use Rattle.bspl_types.specs.Knowledge.{CanEmit, IsKnown, Knows};
ghost use Rattle.bspl_types.specs.Limits.{carried_limit};
ghost use Rattle.role_knowledge.specs.Blocked.{IsFirstBlock};
ghost use Rattle.local_store.specs.Emission.{IsEmission, IsProposal};
ghost use Rattle.local_store.specs.Reception.{AllAgree};
ghost use Rattle.local_store.specs.State.{AreIndices, acts_of, key_at};
ghost use Rattle.local_store.specs.inner.Difference.{NamesDifference};
ghost use Rattle.local_store.specs.inner.Kept.{HasEvent, IsSound};

use super::block::first_block;
use super::difference::first_difference;
use super::filled_values::fill;
use super::receipt::Receipt;
use super::store::Store;
use bspl_types::{Carried, Instance, Key, Stamped, Value, equal_values_are_one};
use role_knowledge::Block;

impl Store {
    /// The row of the key, if it is held.
    pub(crate) fn row_of(&self, key: &Key) -> Option<usize>
        ensures found { MatchOption result (¬ Contains self.now.keys key.now)
            (λ row. slice_get self.now.keys row ≡ Some key.now) }
        ensures sound { IsSound self.now }
    {
        self.keys.index_of(key)
    }

    /// The known value of the parameter under the row's key.
    pub(crate) fn known_at(&self, row: usize, param: u32) -> Option<Value>
        requires row { row < length self.now.keys }
        requires param { param < length self.now.protocol.params }
        ensures { MatchOption result
            (¬ IsKnown self.now.protocol (acts_of self.now) (key_at self.now row) param)
            (Knows self.now.protocol (acts_of self.now) (key_at self.now row) param) }
    {
        self.cells.at(row, param as usize)
    }

    /// Whether there is an event of the message under the row's key.
    pub(crate) fn has_event(&self, row: usize, message: u32) -> bool
        requires { AreIndices self.now row message }
        ensures { IsTrue result ↔ HasEvent (acts_of self.now) (key_at self.now row) message }
    {
        self.marks.at(row, message as usize)
    }

    /// The first of the instance's values that is not the known one.
    pub(crate) fn difference_at(&self, row: usize, i: &Instance) -> Option<Receipt>
        requires row { slice_get self.now.keys row ≡ Some i.now.key }
        requires fits { Fits self.now.protocol i.now }
        ensures { MatchOption result
            (AllAgree self.now.protocol (acts_of self.now) i.now)
            (NamesDifference self.now.protocol (acts_of self.now) i.now) }
    {
        // law: values that the test finds equal are one value
        equal_values_are_one();
        let carried = self.carried(i.message);
        first_difference(&self.cells, row, carried, i.values.as_slice())
    }

    /// What blocks an emission of the message under the row's key.
    pub(crate) fn block_at(&self, row: usize, message: u32) -> Option<Block>
        requires { AreIndices self.now row message }
        ensures exact { IsNone result ↔
            CanEmit self.now.protocol (acts_of self.now) message (key_at self.now row) }
        ensures blocked { IfSome result
            (IsFirstBlock self.now.protocol (acts_of self.now) (key_at self.now row)
            (message_of self.now.protocol message).carried) }
    {
        // law: keys that the test finds equal are one key
        equal_values_are_one();
        first_block(&self.cells, row, self.carried(message))
    }

    /// The row of a held key.
    pub(crate) fn held_row(&self, key: &Key) -> usize
        requires { Contains self.now.keys key.now }
        ensures row { slice_get self.now.keys result ≡ Some key.now }
        ensures within { result < length self.now.keys }
        ensures key { key_at self.now result ≡ key.now }
        ensures sound { IsSound self.now }
    {
        self.row_of(key).unwrap()
    }

    /// The row of a held key. The guess is looked at first.
    pub(crate) fn near_row(&self, key: &Key, guess: usize) -> usize
        requires { Contains self.now.keys key.now }
        ensures row { slice_get self.now.keys result ≡ Some key.now }
        ensures within { result < length self.now.keys }
        ensures key { key_at self.now result ≡ key.now }
        ensures sound { IsSound self.now }
    {
        if self.is_at(key, guess) {
            return guess;
        }
        self.held_row(key)
    }

    /// Whether the key is the row's.
    fn is_at(&self, key: &Key, row: usize) -> bool
        ensures at { IsTrue result → slice_get self.now.keys row ≡ Some key.now }
        ensures sound { IsSound self.now }
    {
        row < self.keys.len() && self.keys.at(row).same(key)
    }

    /// What the message carries.
    pub(crate) fn carried(&self, message: u32) -> &[Carried]
        requires { message < length self.now.protocol.messages }
        ensures carried { result.now ≡ (message_of self.now.protocol message).carried }
        ensures exist { All (λ c. c.param < length self.now.protocol.params) result.now }
        ensures few { length result.now ≤ carried_limit }
    {
        let x = self.admitted.expanded();
        x.messages.at(message as usize).carried.as_slice()
    }

    /// What is emitted, if the message can be emitted under the row's key.
    pub(crate) fn emission(&self, row: usize, message: u32, key: &Key, outs: &[Value]) -> Stamped
        requires row { slice_get self.now.keys row ≡ Some key.now }
        requires can { CanEmit self.now.protocol (acts_of self.now) message key.now }
        requires proposal { IsProposal self.now message key.now outs.now }
        ensures { IsEmission self.now message key.now outs.now result }
    {
        let x = self.admitted.expanded();
        let carried = self.carried(message);
        let keys = x.keys.as_slice();
        Stamped {
            instance: Instance {
                message,
                key: *key,
                values: fill(&self.cells, row, keys, key.as_slice(), outs, carried),
            },
            stamp: self.clock() + 1,
            number: self.len(),
        }
    }
}
