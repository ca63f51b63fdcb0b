ghost use Rattle.std.specs.Prelude.{◌≡◌, ◌++◌, decimal, IfOk, map, OnOk};
ghost use Rattle.serde_json.specs.Written.{compact_text};
ghost use Rattle.role_questions.specs.Answers.{values_data};
ghost use Rattle.role_questions.specs.inner.Written.{carried_as_known};

use super::form::KnownValue;
use bspl_types::{Adornment, Carried, Expanded, Value};
use list_base::{Bytes, NoMemory, Seq};
use std::alloc::Global;
use text_lines::{numerals_are_decimals, push_decimal};
use wire_form::push_values;

/// Appends the known values as an object, in the order of their parameters' names.
pub(crate) fn push_known_values(
    alloc: Global,
    text: &mut Bytes,
    x: &Expanded,
    list: &[KnownValue],
) -> Result<(), NoMemory>
    ensures { OnOk result (text.new ≡ text.old ++ compact_text (values_data x.now list.now)) }
{
    let carried = carried_in(alloc, list)?;
    let values = values_in(alloc, list)?;
    text.push(b'{')?;
    push_values(alloc, text, x, carried.as_slice(), values.as_slice())
}

/// The parameters, as ones that are carried with a value.
fn carried_in(alloc: Global, list: &[KnownValue]) -> Result<Seq<Carried>, NoMemory>
    ensures { IfOk result (λ carried. carried ≡ map carried_as_known list.now) }
{
    let mut carried = Seq::new(alloc);
    for known in list {
        let param = known.param;
        let adornment = Adornment::In;
        carried.push(Carried { param, adornment })?;
    }
    Ok(carried)
}

/// The values.
fn values_in(alloc: Global, list: &[KnownValue]) -> Result<Seq<Value>, NoMemory>
    ensures { IfOk result (λ values. values ≡ map (λ k. k.value) list.now) }
{
    let mut values = Seq::new(alloc);
    for known in list {
        values.push(known.value)?;
    }
    Ok(values)
}

/// Appends the number in decimal.
pub(crate) fn push_number(text: &mut Bytes, number: u64) -> Result<(), NoMemory>
    ensures { OnOk result (text.new ≡ text.old ++ decimal number) }
{
    // law: the numerals of 64 bits are those of the standard library
    numerals_are_decimals();
    push_decimal(text, number)
}
