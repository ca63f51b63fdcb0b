ghost use Rattle.std.specs.Prelude.{◌≡◌, ◌++◌, OnOk};
ghost use Rattle.std.specs.Option.{option_map};
ghost use Rattle.tool_input.specs.Lines.{lines};
ghost use Rattle.tool_input.specs.Parts.{first_part};
ghost use Rattle.answer_words.specs.Nearest.{nearest_line};
ghost use Rattle.answer_words.specs.PartLines.{first_part_text, labelled_spot, missing_part_text};
ghost use Rattle.answer_words.specs.PartLines.{near_line_text, part_again_text, part_line_place};
ghost use Rattle.answer_words.specs.PartLines.{part_place, refused_line_text};
ghost use Rattle.answer_words.specs.Place.{spot_of};

use super::exclusion::excluding_place;
use super::near_names::nearest_line;
use super::place::{Place, line_of, place_of, push_place};
use super::wording::details::{self, PART_MARK};
use list_base::{Bytes, NoMemory};
use std::alloc::Global;
use tool_input::{first_part, protocol_text};

/// The n-th line of the part, in the whole input.
pub(crate) fn part_place(input: &[u8], n: u64) -> Option<Place<'_>>
    ensures { option_map spot_of result ≡ part_place input.now n (first_part input.now) }
{
    let (_, part) = first_part(input)?;
    let begin = place_of(input, (input.len() - part.len()) as u64);
    Some(line_of(part, begin.line, n))
}

/// Appends the lines on a part that does not come first: what does, and what is nearly its part
/// line.
pub(crate) fn push_missing_part(
    alloc: Global,
    text: &mut Bytes,
    input: &[u8],
    part: &[u8],
) -> Result<(), NoMemory>
    ensures { OnOk result (text.new ≡ text.old ++ missing_part_text input.now part.now) }
{
    push_first_part(text, input)?;
    push_near_line(alloc, text, input, part)
}

/// Appends the lines on a line of the part that is refused.
pub(crate) fn push_refused_line(
    text: &mut Bytes,
    input: &[u8],
    n: u64,
    line: &[u8],
) -> Result<(), NoMemory>
    ensures { OnOk result (text.new ≡ text.old ++ refused_line_text input.now n line.now) }
{
    push_part_again(text, input, line)?;
    push_labelled(text, details::EXCLUDED_BY, &excluding_place(input, n))
}

/// Appends the first part line, if the line begins as one.
fn push_part_again(text: &mut Bytes, input: &[u8], line: &[u8]) -> Result<(), NoMemory>
    ensures { OnOk result (text.new ≡ text.old ++ part_again_text input.now line.now) }
{
    if line.starts_with(b"%%") {
        push_first_part(text, input)
    } else {
        Ok(())
    }
}

/// Appends the line on the first part line.
fn push_first_part(text: &mut Bytes, input: &[u8]) -> Result<(), NoMemory>
    ensures { OnOk result (text.new ≡ text.old ++ first_part_text input.now) }
{
    push_labelled(text, details::FIRST_PART_LINE, &part_line_place(input))
}

/// Where the first part line is: it begins where the protocol text ends.
fn part_line_place(input: &[u8]) -> Option<Place<'_>>
    ensures { option_map spot_of result ≡ part_line_place input.now (first_part input.now) }
{
    let (_, _) = first_part(input)?;
    Some(place_of(input, protocol_text(input).len() as u64))
}

/// Appends a line with its place after the label, if there is one.
fn push_labelled(text: &mut Bytes, label: &[u8], place: &Option<Place<'_>>) -> Result<(), NoMemory>
    ensures { OnOk result
        (text.new ≡ text.old ++ labelled_spot label.now (option_map spot_of place.now)) }
{
    match place {
        Some(place) => {
            text.append(label)?;
            push_place(text, place)
        }
        None => Ok(()),
    }
}

/// Appends the line that is nearest to the part line.
fn push_near_line(
    alloc: Global,
    text: &mut Bytes,
    input: &[u8],
    part: &[u8],
) -> Result<(), NoMemory>
    ensures { OnOk result (text.new ≡ text.old ++
        near_line_text (nearest_line (PART_MARK.now ++ part.now) (lines input.now))) }
{
    let mut wanted = Bytes::from_slice(alloc, PART_MARK)?;
    wanted.append(part)?;
    match nearest_line(wanted.as_slice(), input) {
        Some(place) => {
            text.append(details::NEAREST_LINE)?;
            push_place(text, &place)
        }
        None => text.append(details::NO_LINE),
    }
}
