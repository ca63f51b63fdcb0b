ghost use Rattle.std.specs.Prelude.{◌≡◌, ℕ, ◌<◌, ◌↔◌, ◌++◌, ◌≢◌, [], ◌∷◌, length, slice_get, Some};
ghost use Rattle.std.specs.Prelude.{IsTrue, MatchOption, OnOk, OnErr};
ghost use Rattle.std.specs.List.{AllPairs, Contains};
ghost use Rattle.key_table.specs.inner.KeyIndex.{index_by_number};

use super::sorted_key::SortedKey;
use bspl_types::{Key, Value};
use list_base::{NoMemory, Seq};
use std::alloc::Global;
use std::collections::BTreeMap;
use std::marker::Model;

/// Distinct keys, in the order of adding. Contracts see their list.
///
/// A key whose first value is its number, from 1 in the order of adding, is found by that number. A
/// map has the indices of all other keys, and finds each by the order of its values, whichever keys
/// are chosen.
#[derive(Drop)]
pub struct KeyTable {
    keys: Seq<Key>,
    indices: BTreeMap<SortedKey, usize>,
}

impl Model for KeyTable {
    ghost use Rattle.std.specs.Prelude.{List};
    ghost use Rattle.bspl_types.specs.declared.value.Value.{Value as SpecValue};
    ghost use Rattle.key_table.specs.inner.KeyIndex.{IsKeyIndex};

    ghost Value = { List (List SpecValue) };

    ghost view = { λ t. t.keys };

    ghost invariant = { λ t. IsKeyIndex t.keys t.indices };
}

impl KeyTable {
    /// No key. It takes no memory yet.
    pub fn new(alloc: Global) -> KeyTable
        ensures { result ≡ [] }
    {
        KeyTable {
            keys: Seq::new(alloc),
            indices: BTreeMap::new(alloc),
        }
    }

    /// How many keys there are.
    pub fn len(&self) -> usize
        ensures { result ≡ length self.now }
    {
        self.keys.len()
    }

    /// The key at the index, from 0.
    pub fn at(&self, i: usize) -> Key
        requires { i < length self.now }
        ensures { slice_get self.now i ≡ Some result }
    {
        *self.keys.at(i)
    }

    /// The index of the key, if it is among them.
    pub fn index_of(&self, key: &Key) -> Option<usize>
        ensures { MatchOption result (¬ Contains self.now key.now)
            (λ i. slice_get self.now i ≡ Some key.now) }
    {
        if let Some(index) = self.numbered(key) {
            return Some(index);
        }
        self.indices.get(&SortedKey::of(key)).copied()
    }

    /// The index of the key, if its first value is its number.
    fn numbered(&self, key: &Key) -> Option<usize>
        ensures { MatchOption result
            ((i : ℕ) → index_by_number key.now ≡ Some i → slice_get self.now i ≢ Some key.now)
            (λ i. slice_get self.now i ≡ Some key.now) }
    {
        let index = index_by_number(key)?;
        if index < self.keys.len() && self.keys.at(index).same(key) {
            Some(index)
        } else {
            None
        }
    }

    /// Whether the key is among them.
    pub fn has(&self, key: &Key) -> bool
        ensures { IsTrue result ↔ Contains self.now key.now }
    {
        self.index_of(key).is_some()
    }

    /// Puts a key that is not among them at the end.
    pub fn add(&mut self, key: &Key) -> Result<(), NoMemory>
        requires { ¬ Contains self.old key.now }
        ensures ok { OnOk result (self.new ≡ self.old ++ key.now ∷ []) }
        ensures err { OnErr result (self.new ≡ self.old) }
    {
        let index = self.keys.len();
        self.keys.push(*key)?;
        if is_numbered(key, index) {
            return Ok(());
        }
        match self.indices.insert(SortedKey::of(key), index) {
            Ok(_) => Ok(()),
            Err(_) => {
                self.keys.pop();
                Err(NoMemory)
            }
        }
    }

    /// A law: no two of the keys are equal.
    pub fn are_distinct(&self)
        ensures { AllPairs (λ k l. k ≢ l) self.now }
    {
        let _ = &self.keys;
    }
}

/// The index that the key has if its first value is its number.
fn index_by_number(key: &Key) -> Option<usize>
    ensures { result ≡ index_by_number key.now }
{
    match key.as_slice().first() {
        Some(Value::Number(number)) => Some(number.checked_sub(1)? as usize),
        _ => None,
    }
}

/// Whether the index is the one that the key has by its number.
fn is_numbered(key: &Key, index: usize) -> bool
    ensures { IsTrue result ↔ (index_by_number key.now ≡ Some index) }
{
    match index_by_number(key) {
        Some(found) => found == index,
        None => false,
    }
}
