ghost use Rattle.std.specs.Prelude.{◌≡◌, ◌↔◌, ◌++◌, IsTrue, OnOk, OnErr, MatchOption};
ghost use Rattle.std.specs.Cmp.{partial_equiv_from_equiv};
ghost use Rattle.bspl_types.specs.Value.{same_value, equal_values, IsValue};
ghost use Rattle.bspl_types.specs.ValueSpelling.{SpellsValue, value_spelling};
ghost use Rattle.bspl_types.specs.Equality.{same_value_laws};

use super::field::{read_number, read_text};
use super::spelling::spelled;
use super::text::Text32;
use list_base::{Bytes, NoMemory};

/// What a parameter is bound to.
#[derive(Clone, Copy, Debug)]
pub enum Value {
    /// A whole number.
    Number(u64),
    /// A text of at most 32 bytes.
    Text(Text32),
}

impl Value {
    /// The value that the field spells, if it spells one.
    pub fn read(field: &[u8]) -> Option<Value>
        ensures { MatchOption result
            ((v : Value) → ¬ SpellsValue field.now v) (SpellsValue field.now) }
    {
        match field.strip_prefix(b"\"") {
            Some(text) => match read_text(text) {
                None => None,
                Some(text) => Some(Value::Text(text)),
            },
            None => match read_number(field) {
                None => None,
                Some(number) => Some(Value::Number(number)),
            },
        }
    }

    /// Whether both are one value.
    pub fn same(&self, other: &Value) -> bool
        ensures exact { IsTrue result ↔ (self.now ≡ other.now) }
        ensures test { result ≡ same_value self.now other.now }
    {
        self == other
    }

    /// Puts the spelling at the end, in one step.
    pub fn write(&self, into: &mut Bytes) -> Result<(), NoMemory>
        ensures ok { OnOk result (into.new ≡ into.old ++ value_spelling self.now) }
        ensures err { OnErr result (into.new ≡ into.old) }
        ensures value { IsValue self.now }
    {
        into.append(spelled(self).as_slice())
    }
}

impl PartialEq for Value {
    ghost eq = { same_value };

    ghost laws = { partial_equiv_from_equiv same_value_laws };

    fn eq(&self, other: &Value) -> bool {
        match (self, other) {
            (Value::Number(number), Value::Number(same)) => number == same,
            (Value::Text(text), Value::Text(same)) => text == same,
            (Value::Number(_), Value::Text(_)) | (Value::Text(_), Value::Number(_)) => false,
        }
    }
}

impl Eq for Value {
    ghost laws = { same_value_laws };
}

/// Whether two lists of values are equal.
pub fn are_equal(left: &[Value], right: &[Value]) -> bool
    ensures test { result ≡ equal_values left.now right.now }
    ensures exact { IsTrue result ↔ (left.now ≡ right.now) }
{
    left == right
}
