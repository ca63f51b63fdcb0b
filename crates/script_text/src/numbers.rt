ghost use Rattle.std.specs.Prelude.{◌≡◌, ◌≢◌, ℕ, ◌<◌, ◌^◌, [], ◌∷◌, MatchOption};
ghost use Rattle.std.specs.Fmt.{decimal};
ghost use Rattle.text_lines.specs.Fields.{fields_of};

use bspl_types::{Value, spells_once};
use text_lines::first_field;

/// The number that the field spells, if it spells one of 64 bits.
pub(crate) fn number_of(field: &[u8]) -> Option<u64>
    ensures { MatchOption result
        ((n : ℕ) → n < 2 ^ 64 → field.now ≢ decimal n) (λ n. field.now ≡ decimal n) }
{
    spells_once(); // law: a field spells one value at most
    match Value::read(field) {
        None => None,
        Some(Value::Text(_)) => None,
        Some(Value::Number(number)) => Some(number),
    }
}

/// The number that is all that is left of a line.
pub(crate) fn last_number(rest: &[u8]) -> Option<u64>
    ensures { MatchOption result
        ((n : ℕ) → n < 2 ^ 64 → fields_of rest.now ≢ decimal n ∷ [])
        (λ n. fields_of rest.now ≡ decimal n ∷ []) }
{
    let (field, after) = first_field(rest)?;
    if first_field(after).is_some() {
        return None;
    }
    number_of(field)
}
