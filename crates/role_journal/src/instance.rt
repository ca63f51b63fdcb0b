ghost use Rattle.std.specs.Prelude.{◌≡◌, ◌<◌, ◌≤◌, length, map};
ghost use Rattle.std.specs.List.{zip};
ghost use Rattle.bspl_types.specs.declared.event.Instance.{Instance};
ghost use Rattle.bspl_types.specs.Adornment.{valued};
ghost use Rattle.bspl_types.specs.Admission.{IsAdmitted};
ghost use Rattle.bspl_types.specs.Expansion.{message_of};
ghost use Rattle.bspl_types.specs.Instance.{Fits};
ghost use Rattle.bspl_types.specs.Limits.{key_limit};
ghost use Rattle.role_journal.specs.inner.Reading.{value_at};

use bspl_types::{Admitted, Carried, Instance, Key, Value, Values};

/// The one instance of the message that has these values: they tell its key.
pub fn instance_with(a: &Admitted, message: u32, values: &Values) -> Instance
    requires known { message < length a.now.messages }
    requires each { length values.now ≡ length (valued (message_of a.now message).carried) }
    ensures fits { Fits a.now result }
    ensures message { result.message ≡ message }
    ensures values { result.values ≡ values.now }
    ensures only { (i : Instance) → Fits a.now i → i.message ≡ message → i.values ≡ values.now →
        i ≡ result }
{
    let x = a.expanded();
    let carried = x.message_at(message).carried.as_slice();
    Instance {
        message,
        key: key_of(x.keys.as_slice(), carried, values.as_slice()),
        values: *values,
    }
}

/// The key that the values of the key parameters make.
fn key_of(keys: &[u32], carried: &[Carried], values: &[Value]) -> Key
    requires some { 0 < length keys.now }
    requires few { length keys.now ≤ key_limit }
    ensures { result ≡ map (λ p. value_at p (zip (valued carried.now) values.now)) keys.now }
{
    let mut key = Values::new();
    for param in keys {
        key.push(value_at(*param, carried, values));
    }
    Key::of(key.as_slice())
}

/// The value of the parameter, or 0 if it has none.
fn value_at(param: u32, carried: &[Carried], values: &[Value]) -> Value
    ensures { result ≡ value_at param (zip (valued carried.now) values.now) }
{
    let mut remaining = values;
    for c in carried {
        if c.adornment.has_value() {
            let Some((value, rest)) = remaining.split_first() else {
                return Value::Number(0);
            };
            if c.param == param {
                return *value;
            }
            remaining = rest;
        }
    }
    Value::Number(0)
}
