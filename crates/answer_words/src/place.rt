ghost use Rattle.std.specs.Prelude.{◌≡◌, ◌+◌, ◌<◌, ◌≤◌, ◌-◌, ◌^◌, ◌++◌, length, min, take, OnOk};
ghost use Rattle.tool_input.specs.Lines.{lines};
ghost use Rattle.answer_words.specs.Place.{indent, line_in, place_of, spot_of, spot_text};

use super::wording;
use list_base::{Bytes, NoMemory};
use text_lines::{push_decimal, split_once};

/// A place in a text: its line and its column, both counted from 1, and the bytes of its line.
#[derive(Clone, Copy)]
pub struct Place<'a> {
    pub line: u64,
    pub column: u64,
    pub shown: &'a [u8],
}

/// The place of the offset. One past the end is taken as the end.
pub fn place_of(text: &[u8], offset: u64) -> Place<'_>
    ensures place { spot_of result ≡ place_of text.now offset }
    ensures within { result.line ≤ min offset (length text.now) + 1 }
{
    let mut rest = text;
    let mut line = 1;
    let mut left = offset.min(text.len() as u64);
    'lines: loop {
        let (shown, after) = split_once(rest, b'\n');
        let here = Place {
            line,
            column: left + 1,
            shown,
        };
        let Some(more) = after else {
            return here;
        };
        if left <= shown.len() as u64 {
            return here;
        }
        left -= shown.len() as u64 + 1;
        line += 1;
        rest = more;
    }
}

/// The beginning of the `n`-th line of the text, whose first line has the number `first`.
pub fn line_of(text: &[u8], first: u64, n: u64) -> Place<'_>
    requires { first + length text.now + 1 < 2 ^ 64 }
    ensures { spot_of result ≡ line_in first (lines text.now) n }
{
    let mut rest = text;
    let mut line = first;
    let mut left = n;
    'lines: loop {
        let (shown, after) = split_once(rest, b'\n');
        if left <= 1 {
            return at_line(line, shown);
        }
        line += 1;
        let Some(more) = after else {
            return at_line(line, &[]);
        };
        left -= 1;
        rest = more;
    }
}

/// The beginning of a line.
fn at_line(line: u64, shown: &[u8]) -> Place<'_>
    ensures { spot_of result ≡ record { line = line; column = 1; shown = shown.now } }
{
    Place {
        line,
        column: 1,
        shown,
    }
}

/// Appends the place in words, its line, and a mark under the place.
pub(crate) fn push_place(text: &mut Bytes, place: &Place<'_>) -> Result<(), NoMemory>
    ensures { OnOk result (text.new ≡ text.old ++ spot_text (spot_of place.now)) }
{
    text.append(wording::LINE)?;
    push_decimal(text, place.line)?;
    text.append(wording::COLUMN)?;
    push_decimal(text, place.column)?;
    text.append(wording::NEXT_SHOWN)?;
    text.append(place.shown)?;
    text.append(wording::NEXT_SHOWN)?;
    push_indent(text, before_mark(place))?;
    text.append(wording::MARK)
}

/// The bytes of the line before the place.
fn before_mark<'a>(place: &Place<'a>) -> &'a [u8]
    ensures { result.now ≡ take (place.now.column - 1) place.now.shown.now }
{
    let len = (place.column.saturating_sub(1) as usize).min(place.shown.len());
    &place.shown[..len]
}

/// Appends what stands left of a mark: tabs stay, so that the mark is where it should be.
fn push_indent(text: &mut Bytes, bytes: &[u8]) -> Result<(), NoMemory>
    ensures { OnOk result (text.new ≡ text.old ++ indent bytes.now) }
{
    for byte in bytes {
        text.push(if *byte == b'\t' { b'\t' } else { b' ' })?;
    }
    Ok(())
}
