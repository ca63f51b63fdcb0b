ghost use Rattle.std.specs.Prelude.{◌≡◌, ◌≤◌, IfSome, Some};
ghost use Rattle.json.specs.Json as spec;
ghost use Rattle.json.specs.Value.{items_view, members_view, value_view};
ghost use Rattle.serde_json.specs.Data.{number, string, unsigned};
ghost use Rattle.serde_json.specs.Read.{of_json};

use json::Value;
use text_lines::{numerals_are_decimals, read_decimal};

/// The members of an object, as they stand in its text.
pub(crate) fn members_of<'v, 'a>(value: &'v Value<'a>) -> Option<&'v [(&'a str, Value<'a>)]>
    ensures { IfSome result (λ members.
        value_view value.now ≡ spec.object (members_view members.now)) }
{
    if let Value::Object(members) = value {
        Some(members.as_slice())
    } else {
        None
    }
}

/// The items of an array.
pub(crate) fn items_of<'v, 'a>(value: &'v Value<'a>) -> Option<&'v [Value<'a>]>
    ensures { IfSome result (λ items. value_view value.now ≡ spec.array (items_view items.now)) }
{
    if let Value::Array(items) = value {
        Some(items.as_slice())
    } else {
        None
    }
}

/// The first of the members, if it has the name, and those after it.
pub(crate) fn member_named<'v, 'a>(
    members: &'v [(&'a str, Value<'a>)],
    name: &str,
) -> Option<(&'v Value<'a>, &'v [(&'a str, Value<'a>)])>
    ensures { IfSome result (λ found. members_view members.now ≡
        spec.member name.now (value_view found.0.now) (members_view found.1.now)) }
{
    let Some((first, rest)) = members.split_first() else {
        return None;
    };
    if first.0 == name {
        Some((&first.1, rest))
    } else {
        None
    }
}

/// The text of a string.
#[tactic(auto, using(crate::proofs::InOrderLemmas::text_read))]
pub(crate) fn text_in<'a>(value: &Value<'a>) -> Option<&'a str>
    ensures { IfSome result (λ text. of_json (value_view value.now) ≡ Some (string text.now)) }
{
    value.as_str()
}

/// The number that is written as one of 64 bits is, up to the most.
#[tactic(auto, using(crate::proofs::InOrderLemmas::number_read))]
pub(crate) fn number_in(value: &Value<'_>, most: u64) -> Option<u64>
    ensures { IfSome result (λ n. (n ≤ most) ×
        (of_json (value_view value.now) ≡ Some (number (unsigned n)))) }
{
    // law: the numerals of 64 bits are those of the standard library
    numerals_are_decimals();
    let text = value.as_number()?;
    match read_decimal(text.as_bytes(), most) {
        Ok(n) => Some(n),
        Err(_) => None,
    }
}
