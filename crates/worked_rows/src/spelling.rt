use list_base::{Bytes, NoMemory};
use std::alloc::Global;
use text_lines::{read_decimal, split_once};

/// Appends what the line of a row stands for. A line `* COUNT TEXT` stands for COUNT lines TEXT,
/// numbered from 1; every other line has the number 0.
pub(crate) fn append_line(alloc: Global, out: &mut Bytes, line: &[u8]) -> Result<(), NoMemory> {
    let Some((count, text)) = repetition(line) else {
        return append_once(alloc, out, line, 0);
    };
    for before in 0..count {
        append_once(alloc, out, text, before.saturating_add(1))?;
    }
    Ok(())
}

/// The count and the text of a line `* COUNT TEXT`.
fn repetition(line: &[u8]) -> Option<(u64, &[u8])> {
    let (count, text) = split_once(line.strip_prefix(b"* ")?, b' ');
    Some((read_decimal(count, 1_000_000).ok()?, text?))
}

/// Appends the text and its line end. A backslash at the end of the text takes the line end away.
fn append_once(alloc: Global, out: &mut Bytes, text: &[u8], number: u64) -> Result<(), NoMemory> {
    match text.strip_suffix(b"\\") {
        Some(kept) => append_spelled(alloc, out, kept, number),
        None => {
            append_spelled(alloc, out, text, number)?;
            out.push(b'\n')
        }
    }
}

/// Appends the text, in which `\xHH` is the byte of these two hexadecimal digits, `\#` the number
/// and `\+` the number after it.
pub(crate) fn append_spelled(
    alloc: Global,
    out: &mut Bytes,
    text: &[u8],
    number: u64,
) -> Result<(), NoMemory> {
    let (plain, escapes) = split_once(text, b'\\');
    out.append(plain)?;
    let Some(escapes) = escapes else {
        return Ok(());
    };
    for piece in escapes.split(|b| *b == b'\\') {
        append_escape(alloc, out, piece, number)?;
    }
    Ok(())
}

/// Appends what a backslash and the piece after it stand for.
fn append_escape(
    alloc: Global,
    out: &mut Bytes,
    piece: &[u8],
    number: u64,
) -> Result<(), NoMemory> {
    let rest = match piece {
        [b'#', rest @ ..] => {
            append_number(alloc, out, number)?;
            rest
        }
        [b'+', rest @ ..] => {
            append_number(alloc, out, number.saturating_add(1))?;
            rest
        }
        [b'x', high, low, rest @ ..] if is_digit(*high) && is_digit(*low) => {
            out.push(byte_of(*high, *low))?;
            rest
        }
        _ => {
            out.push(b'\\')?;
            piece
        }
    };
    out.append(rest)
}

/// Appends the digits of the number.
pub(crate) fn append_number(alloc: Global, out: &mut Bytes, number: u64) -> Result<(), NoMemory> {
    out.append(number.to_string(alloc)?.as_bytes())
}

/// Whether the byte is a hexadecimal digit, in lower case.
fn is_digit(byte: u8) -> bool {
    matches!(byte, b'0'..=b'9' | b'a'..=b'f')
}

/// The byte of two hexadecimal digits.
fn byte_of(high: u8, low: u8) -> u8 {
    value_of(high).wrapping_mul(16).wrapping_add(value_of(low))
}

/// The value of a hexadecimal digit.
fn value_of(digit: u8) -> u8 {
    if digit.is_ascii_digit() {
        digit.wrapping_sub(b'0')
    } else {
        digit.wrapping_sub(b'a').wrapping_add(10)
    }
}
