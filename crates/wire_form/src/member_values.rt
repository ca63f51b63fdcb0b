ghost use Rattle.std.specs.Prelude.{◌≡◌, ◌↔◌, ◌≤◌, length, IfSome, IsTrue, List, MatchOption};
ghost use Rattle.std.specs.List.{AllZip};
ghost use Rattle.bspl_types.specs.declared.value.Value.{Value as SpecValue};
ghost use Rattle.bspl_types.specs.Adornment.{valued};
ghost use Rattle.bspl_types.specs.Limits.{carried_limit};
ghost use Rattle.bspl_types.specs.ValueSpelling.{SpellsValue};
ghost use Rattle.wire_form.specs.Meaning.{IsGiven};
ghost use Rattle.wire_form.specs.Texts.{texts_of};
ghost use Rattle.wire_form.specs.inner.Asked.{fields_of};

use super::asked::Field;
use super::member::Member;
use super::names::param_name;
use bspl_types::{Carried, Expanded, Value, Values};

/// The values that the texts spell.
pub fn spelled_values(texts: &[&str]) -> Option<Values>
    requires few { length texts.now ≤ carried_limit }
    ensures read { MatchOption result
        ((values : List SpecValue) → ¬ AllZip SpellsValue (texts_of texts.now) values)
        (AllZip SpellsValue (texts_of texts.now)) }
    ensures count { IfSome result (λ values. length values ≡ length texts.now) }
{
    let mut values = Values::new();
    for text in texts {
        let Some(value) = Value::read(text.as_bytes()) else {
            return None;
        };
        values.push(value);
    }
    Some(values)
}

/// The values that the fields give to those of the parameters that have one.
pub(crate) fn given_values(
    x: &Expanded,
    carried: &[Carried],
    fields: &[Field<'_>],
) -> Option<Values>
    requires few { length carried.now ≤ carried_limit }
    ensures { MatchOption result
        ((values : List SpecValue) →
        ¬ AllZip (IsGiven x.now (fields_of fields.now)) (valued carried.now) values)
        (AllZip (IsGiven x.now (fields_of fields.now)) (valued carried.now)) }
{
    let mut values = Values::new();
    for c in carried {
        if c.adornment.has_value() {
            let Some(value) = given_value(x, *c, fields) else {
                return None;
            };
            values.push(value);
        }
    }
    Some(values)
}

/// The value that the fields give to the parameter.
fn given_value(x: &Expanded, c: Carried, fields: &[Field<'_>]) -> Option<Value>
    ensures { MatchOption result
        ((v : SpecValue) → ¬ IsGiven x.now (fields_of fields.now) c v)
        (IsGiven x.now (fields_of fields.now) c) }
{
    let name = param_name(x, c.param);
    for field in fields {
        if is_named(field, name) {
            return Value::read(field.text.as_bytes());
        }
    }
    None
}

/// Whether the field has the name.
fn is_named(field: &Field<'_>, name: &[u8]) -> bool
    ensures { IsTrue result ↔ (field.now.name.now ≡ name.now) }
{
    field.name() == name
}
