ghost use Rattle.std.specs.Prelude.{◌≡◌};
ghost use Rattle.std.specs.Option.{option_map};
ghost use Rattle.answer_words.specs.Place.{spot_of};
ghost use Rattle.answer_words.specs.RefusedPlace.{field_place, name_of, number_of, shown_line};

use super::limit_text::limit_text;
use super::part_lines::part_place;
use super::place::{Place, place_of};
use tool_input::{Code, Field};

/// The place of a refusal in the whole input, if it has one.
pub(crate) fn field_place<'a>(
    input: &'a [u8],
    code: Code,
    field: &Option<Field>,
) -> Option<Place<'a>>
    ensures { option_map spot_of result ≡ field_place input.now code field.now }
{
    let Some(Field::Number(n)) = field else {
        return None;
    };
    match code {
        Code::P(_) | Code::F(_) | Code::Q(_) => None,
        Code::E(_) => Some(place_of(input, *n)),
        Code::L(_) | Code::W(_) | Code::S(_) | Code::H(_) => part_place(input, *n),
    }
}

/// The number of a field, or 0.
pub(crate) fn number_of(field: &Option<Field>) -> u64
    ensures { result ≡ number_of field.now }
{
    match field {
        Some(Field::Number(n)) => *n,
        _ => 0,
    }
}

/// The name of a field, or how many there may be of what it counts.
pub(crate) fn name_of(field: &Option<Field>) -> &[u8]
    ensures { result.now ≡ name_of field.now }
{
    match field {
        Some(Field::Name(name)) => name.as_slice(),
        Some(Field::Part(part)) => part.name(),
        Some(Field::Counted(what)) => limit_text(*what),
        _ => b"",
    }
}

/// The line at the place.
pub(crate) fn shown_line<'a>(place: &Option<Place<'a>>) -> &'a [u8]
    ensures { result.now ≡ shown_line (option_map spot_of place.now) }
{
    match place {
        Some(place) => place.shown,
        None => b"",
    }
}
