ghost use Rattle.std.specs.Prelude.{◌≡◌, ◌++◌, false, IfOk, OnOk};
ghost use Rattle.std.specs.List.{zip};
ghost use Rattle.serde_json.specs.Data.{no_members};
ghost use Rattle.serde_json.specs.Written.{members_text};
ghost use Rattle.bspl_types.specs.Adornment.{valued};
ghost use Rattle.wire_form.specs.Reply.{put_values};
ghost use Rattle.wire_form.specs.inner.NamedValues.{named_members};

use super::member::Member;
use super::names::param_name;
use super::quoted::{push_quoted, push_value};
use super::sorted::insert;
use bspl_types::{Carried, Expanded, Value};
use list_base::{Bytes, NoMemory};
use std::alloc::Global;

/// A value with the name of its parameter.
#[derive(Clone, Copy, Debug)]
pub(crate) struct NamedValue<'a> {
    pub name: &'a [u8],
    pub value: &'a Value,
}

impl Member for NamedValue<'_> {
    ghost use Rattle.wire_form.specs.Reply.{value_data};

    ghost name = { λ n. n.name.now };

    ghost content = { λ n. value_data n.value.now };

    fn name(&self) -> &[u8] {
        self.name
    }
}

/// Writes the values of these parameters as members of an object, in the order of their names, with
/// the bracket that ends it.
pub fn push_values(
    alloc: Global,
    text: &mut Bytes,
    x: &Expanded,
    carried: &[Carried],
    values: &[Value],
) -> Result<(), NoMemory>
    ensures { OnOk result (text.new ≡ text.old ++ members_text false
        (put_values x.now (zip (valued carried.now) values.now) no_members)) }
{
    let sorted = by_name(alloc, x, carried, values)?;
    push_members(alloc, text, sorted.as_slice())
}

/// The values of these parameters, in the order of their names.
fn by_name<'a>(
    alloc: Global,
    x: &'a Expanded,
    carried: &[Carried],
    values: &'a [Value],
) -> Result<Vec<NamedValue<'a>>, NoMemory>
    ensures { IfOk result (λ sorted. named_members sorted.items ≡
        put_values x.now (zip (valued carried.now) values.now) no_members) }
{
    let mut sorted = Vec::new(alloc);
    let mut left = values;
    for c in carried {
        if c.adornment.has_value() {
            let Some((value, rest)) = left.split_first() else {
                return Ok(sorted);
            };
            let name = param_name(x, c.param);
            insert(&mut sorted, NamedValue { name, value })?;
            left = rest;
        }
    }
    Ok(sorted)
}

/// Writes the values as members of an object, with the bracket that ends it.
fn push_members(alloc: Global, text: &mut Bytes, sorted: &[NamedValue<'_>]) -> Result<(), NoMemory>
    ensures { OnOk result (text.new ≡ text.old ++ members_text false (named_members sorted.now)) }
{
    let mut later = false;
    for named in sorted {
        if later {
            text.push(b',')?;
        }
        push_quoted(text, named.name)?;
        text.push(b':')?;
        push_value(alloc, text, named.value)?;
        later = true;
    }
    text.push(b'}')
}
