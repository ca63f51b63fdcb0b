ghost use Rattle.std.specs.Prelude.{◌≡◌, ◌+◌, ◌<◌, ◌^◌, length, take};
ghost use Rattle.std.specs.List.{list_any};
ghost use Rattle.std.specs.Option.{option_map, option_or};
ghost use Rattle.std.specs.Str.{bytes_eq};
ghost use Rattle.text_lines.specs.Fields.{fields_of};
ghost use Rattle.tool_input.specs.Lines.{lines};
ghost use Rattle.tool_input.specs.Parts.{first_part};
ghost use Rattle.answer_words.specs.Exclusion.{begins_alike, excludes, excluding_spot};
ghost use Rattle.answer_words.specs.Exclusion.{last_excluding, own_fields};
ghost use Rattle.answer_words.specs.PartLines.{excluding_place};
ghost use Rattle.answer_words.specs.Place.{spot_of};
ghost use Rattle.answer_words.specs.ScriptRule.{line_fields};
ghost use lib.Pointwise.{pointwise};

use super::place::{Place, line_of, place_of};
use super::script_rule::{without_return, word_of};
use text_lines::{first_field, split_once};
use tool_input::first_part;

/// The last line of the part before the n-th that excludes it.
pub(crate) fn excluding_place(input: &[u8], n: u64) -> Option<Place<'_>>
    ensures { option_map spot_of result ≡ excluding_place input.now n (first_part input.now) }
{
    let (_, part) = first_part(input)?;
    let begin = place_of(input, (input.len() - part.len()) as u64);
    let refused = line_of(part, begin.line, n);
    last_excluding(refused.shown, part, begin.line, n.saturating_sub(1))
}

/// The last of so many lines of the text that excludes the other one.
fn last_excluding<'a>(other: &[u8], text: &'a [u8], first: u64, count: u64) -> Option<Place<'a>>
    requires { first + length text.now + 1 < 2 ^ 64 }
    ensures { option_map spot_of result ≡
        last_excluding other.now first (take count (lines text.now)) }
{
    let mut found = None;
    let mut rest = text;
    let mut line = first;
    let mut left = count;
    'lines: while left > 0 {
        let (shown, after) = split_once(rest, b'\n');
        found = later(found, line, shown, other);
        let Some(more) = after else {
            return found;
        };
        rest = more;
        line += 1;
        left -= 1;
    }
    found
}

/// The line with that number, if it excludes the other one, or what was found before.
fn later<'a>(
    found: Option<Place<'a>>,
    line: u64,
    shown: &'a [u8],
    other: &[u8],
) -> Option<Place<'a>>
    ensures { option_map spot_of result ≡
        option_or (excluding_spot other.now line shown.now) (option_map spot_of found.entry) }
{
    if excludes(shown, other) {
        Some(Place {
            line,
            column: 1,
            shown,
        })
    } else {
        found
    }
}

/// Whether there is no room for the other line after the line.
fn excludes(line: &[u8], other: &[u8]) -> bool
    ensures { result ≡ excludes line.now other.now }
{
    line == b"end".as_slice() || begin_alike(own_fields(word_of(other)), line, other)
}

/// Whether so many of the first fields of the two lines are equal, and there are some.
fn begin_alike(count: usize, line: &[u8], other: &[u8]) -> bool
    ensures { result ≡ begins_alike count (line_fields line.now) (line_fields other.now) }
{
    count > 0 && are_equal(count, without_return(line), without_return(other))
}

/// Whether so many of the first fields are equal.
fn are_equal(count: usize, line: &[u8], other: &[u8]) -> bool
    ensures { result ≡
        pointwise bytes_eq (take count (fields_of line.now)) (take count (fields_of other.now)) }
{
    if count == 0 {
        return true;
    }
    match first_field(line) {
        None => first_field(other).is_none(),
        Some((one, more)) => match first_field(other) {
            None => false,
            Some((another, others)) => one == another && are_equal(count - 1, more, others),
        },
    }
}

/// How many of its first fields tell a line from each other line of its part, by its first word.
fn own_fields(word: &[u8]) -> usize
    ensures { result ≡ own_fields word.now }
{
    if is_listed(word, b"keys seed loss repeat run histories log") {
        1
    } else if is_listed(word, b"order decline") {
        2
    } else if is_listed(word, b"value role") {
        3
    } else if word == b"key".as_slice() {
        6
    } else {
        0
    }
}

/// Whether the word is one of those listed.
fn is_listed(word: &[u8], listed: &[u8]) -> bool
    ensures { result ≡ list_any (bytes_eq word.now) (fields_of listed.now) }
{
    let mut rest = listed;
    'words: while let Some((one, more)) = first_field(rest) {
        if word == one {
            return true;
        }
        rest = more;
    }
    false
}
