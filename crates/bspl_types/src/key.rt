ghost use Rattle.std.specs.Prelude.{◌≡◌, ◌<◌, ◌≤◌, ◌↔◌, [], ◌∷◌, ◌++◌, length, slice_get, Some};
ghost use Rattle.std.specs.Prelude.{IsTrue};
ghost use Rattle.std.specs.Cmp.{partial_equiv_from_equiv};
ghost use Rattle.bspl_types.specs.Limits.{key_limit, carried_limit};
ghost use Rattle.bspl_types.specs.Value.{equal_values};
ghost use Rattle.bspl_types.specs.Equality.{equal_values_laws};

use super::limits::{CARRIED_LIMIT, KEY_LIMIT};
use super::value::{Value, are_equal};
use std::marker::Model;

/// What fills the cells after the values.
const BLANK: Value = Value::Number(0);

/// The values that tell enactments apart, in the order of the protocol's keys.
///
/// Contracts see a list.
#[derive(Clone, Copy, Debug)]
pub struct Key {
    cells: [Value; KEY_LIMIT],
    len: usize,
}

impl Model for Key {
    ghost use Rattle.std.specs.Prelude.{List, ℕ, ◌<◌, take, length};
    ghost use Rattle.bspl_types.specs.declared.value.Value.{Value as SpecValue};
    ghost use Rattle.bspl_types.specs.declared.value.Value.TheVariants.{Number};
    ghost use Rattle.bspl_types.specs.Limits.{key_limit};
    ghost use Rattle.bspl_types.specs.inner.Padded.{padded, IsPadded, padded_items, length_items};

    ghost Value = { List SpecValue };

    ghost view = { λ k. take k.len k.cells };

    ghost invariant = { λ k. (0 < k.len) × IsPadded key_limit (Number 0) k.len k.cells };

    ghost inverse = { λ xs. record { cells = padded key_limit (Number 0) xs; len = length xs } };

    ghost inverse_ok = { λ k is_key i. record {
      cells = padded_items key_limit (Number 0) k.len k.cells is_key.1 i;
      len = length_items key_limit (Number 0) k.len k.cells is_key.1 i;
    } };
}

impl Key {
    /// The key of these values.
    pub fn of(values: &[Value]) -> Key
        requires few { length values.now ≤ key_limit }
        requires some { 0 < length values.now }
        ensures { result ≡ values.now }
    {
        let len = values.len();
        let mut cells = [BLANK; KEY_LIMIT];
        cells[..len].copy_from_slice(values);
        Key { cells, len }
    }

    /// The values, in order.
    pub fn as_slice(&self) -> &[Value]
        ensures values { result.now ≡ self.now }
        ensures some { 0 < length self.now }
        ensures few { length self.now ≤ key_limit }
    {
        &self.cells[..self.len]
    }

    /// How many values there are.
    pub fn len(&self) -> usize
        ensures { result ≡ length self.now }
    {
        self.len
    }

    /// The value at the index, from 0.
    pub fn at(&self, i: usize) -> Value
        requires { i < length self.now }
        ensures { slice_get self.now i ≡ Some result }
    {
        self.as_slice()[i]
    }

    /// Whether both have the same values.
    pub fn same(&self, other: &Key) -> bool
        ensures exact { IsTrue result ↔ (self.now ≡ other.now) }
        ensures test { result ≡ equal_values self.now other.now }
    {
        are_equal(self.as_slice(), other.as_slice())
    }
}

impl PartialEq for Key {
    ghost eq = { equal_values };

    ghost laws = { partial_equiv_from_equiv equal_values_laws };

    fn eq(&self, other: &Key) -> bool {
        are_equal(self.as_slice(), other.as_slice())
    }
}

impl Eq for Key {
    ghost laws = { equal_values_laws };
}

/// The values of an instance, in the order of its message. Contracts see a list.
#[derive(Clone, Copy, Debug)]
pub struct Values {
    cells: [Value; CARRIED_LIMIT],
    len: usize,
}

impl Model for Values {
    ghost use Rattle.std.specs.Prelude.{List, ℕ, take, length};
    ghost use Rattle.bspl_types.specs.declared.value.Value.{Value as SpecValue};
    ghost use Rattle.bspl_types.specs.declared.value.Value.TheVariants.{Number};
    ghost use Rattle.bspl_types.specs.Limits.{carried_limit};
    ghost use Rattle.bspl_types.specs.inner.Padded.{padded, IsPadded, padded_items, length_items};

    ghost Value = { List SpecValue };

    ghost view = { λ v. take v.len v.cells };

    ghost invariant = { λ v. IsPadded carried_limit (Number 0) v.len v.cells };

    ghost inverse = { λ xs. record {
      cells = padded carried_limit (Number 0) xs;
      len = length xs;
    } };

    ghost inverse_ok = { λ v is_padded i. record {
      cells = padded_items carried_limit (Number 0) v.len v.cells is_padded i;
      len = length_items carried_limit (Number 0) v.len v.cells is_padded i;
    } };
}

impl Values {
    /// No values.
    pub fn new() -> Values
        ensures { result ≡ [] }
    {
        Values {
            cells: [BLANK; CARRIED_LIMIT],
            len: 0,
        }
    }

    /// These values, in place.
    pub fn of(values: &[Value]) -> Values
        requires { length values.now ≤ carried_limit }
        ensures { result ≡ values.now }
    {
        let len = values.len();
        let mut cells = [BLANK; CARRIED_LIMIT];
        cells[..len].copy_from_slice(values);
        Values { cells, len }
    }

    /// Puts a value at the end. There is no room after as many as a message carries.
    pub fn push(&mut self, value: Value)
        requires { length self.old < carried_limit }
        ensures { self.new ≡ self.old ++ value ∷ [] }
    {
        self.cells[self.len] = value;
        self.len += 1;
    }

    /// The values, in order.
    pub fn as_slice(&self) -> &[Value]
        ensures values { result.now ≡ self.now }
        ensures few { length self.now ≤ carried_limit }
    {
        &self.cells[..self.len]
    }

    /// How many values there are.
    pub fn len(&self) -> usize
        ensures { result ≡ length self.now }
    {
        self.len
    }

    /// Whether there is none.
    pub fn is_empty(&self) -> bool
        ensures { IsTrue result ↔ (length self.now ≡ 0) }
    {
        self.len == 0
    }

    /// The value at the index, from 0.
    pub fn at(&self, i: usize) -> Value
        requires { i < length self.now }
        ensures { slice_get self.now i ≡ Some result }
    {
        self.as_slice()[i]
    }

    /// Whether both have the same values.
    pub fn same(&self, other: &Values) -> bool
        ensures exact { IsTrue result ↔ (self.now ≡ other.now) }
        ensures test { result ≡ equal_values self.now other.now }
    {
        are_equal(self.as_slice(), other.as_slice())
    }
}

impl PartialEq for Values {
    ghost eq = { equal_values };

    ghost laws = { partial_equiv_from_equiv equal_values_laws };

    fn eq(&self, other: &Values) -> bool {
        are_equal(self.as_slice(), other.as_slice())
    }
}

impl Eq for Values {
    ghost laws = { equal_values_laws };
}
