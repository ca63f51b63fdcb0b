ghost use Rattle.std.specs.Prelude.{◌≡◌, ◌≢◌, ◌<◌, ◌≤◌, length, IsTrue, List, MatchOption};
ghost use Rattle.std.specs.List.{All};
ghost use Rattle.std.specs.Option.{option_copied};
ghost use Rattle.bspl_types.specs.declared.value.Value.{Value};
ghost use Rattle.bspl_types.specs.Adornment.{valued};
ghost use Rattle.bspl_types.specs.Limits.{carried_limit};
ghost use Rattle.bspl_types.specs.Name.{is_name};
ghost use Rattle.bspl_types.specs.Value.{IsValue};
ghost use Rattle.run_text.specs.RunText.{value_field};
ghost use Rattle.run_text.specs.inner.LineFields.{SpellsValues, tail_of};

use bspl_types::{Carried, ParamInfo, Value, Values, spells_once};
use text_lines::split_once;

/// The values that the fields spell for the parameters that have one.
pub fn values_of(params: &[ParamInfo], carried: &[Carried], fields: Option<&[u8]>) -> Option<Values>
    requires names { All (λ p. IsTrue (is_name p.name)) params.now }
    requires known { All (λ c. c.param < length params.now) carried.now }
    requires few { length carried.now ≤ carried_limit }
    ensures { MatchOption result
        ((values : List Value) → ¬ SpellsValues params.now (valued carried.now)
        (tail_of (option_copied fields.entry)) values)
        (SpellsValues params.now (valued carried.now) (tail_of (option_copied fields.entry))) }
{
    spells_once(); // law: a field spells one value at most
    let mut values = Values::new();
    let mut left = fields;
    for c in carried {
        if c.adornment.has_value() {
            let Some(text) = left else {
                return None;
            };
            let (field, more) = split_once(text, b' ');
            let Some(value) = value_of(params, *c, field) else {
                return None;
            };
            values.push(value);
            left = more;
        }
    }
    if left.is_some() {
        return None;
    }
    Some(values)
}

/// The value that the field spells for the parameter.
fn value_of(params: &[ParamInfo], c: Carried, field: &[u8]) -> Option<Value>
    requires { c.param < length params.now }
    ensures { MatchOption result
        ((v : Value) → IsValue v → field.now ≢ value_field params.now (c, v))
        (λ v. IsValue v × (field.now ≡ value_field params.now (c, v))) }
{
    let Some(rest) = field.strip_prefix(params[c.param as usize].name.as_slice()) else {
        return None;
    };
    let Some(value) = rest.strip_prefix(b"=") else {
        return None;
    };
    Value::read(value)
}
