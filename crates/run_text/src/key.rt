ghost use Rattle.std.specs.Prelude.{◌≡◌, ◌<◌, ◌≤◌, length, map};
ghost use Rattle.std.specs.List.{zip};
ghost use Rattle.bspl_types.specs.Adornment.{valued};
ghost use Rattle.bspl_types.specs.Limits.{key_limit};
ghost use Rattle.run_text.specs.inner.LineFields.{value_at};

use bspl_types::{Carried, Key, Value, Values};

/// The key that the values of the key parameters make.
pub fn key_of(keys: &[u32], carried: &[Carried], values: &[Value]) -> Key
    requires some { 0 < length keys.now }
    requires few { length keys.now ≤ key_limit }
    ensures { result ≡ map (λ p. value_at p (zip (valued carried.now) values.now)) keys.now }
{
    let mut key = Values::new();
    for param in keys {
        key.push(value_at(*param, carried, values));
    }
    Key::of(key.as_slice())
}

/// The value of the parameter, or 0 if it has none.
fn value_at(param: u32, carried: &[Carried], values: &[Value]) -> Value
    ensures { result ≡ value_at param (zip (valued carried.now) values.now) }
{
    let mut remaining = values;
    for c in carried {
        if c.adornment.has_value() {
            let Some((value, rest)) = remaining.split_first() else {
                return Value::Number(0);
            };
            if c.param == param {
                return *value;
            }
            remaining = rest;
        }
    }
    Value::Number(0)
}
