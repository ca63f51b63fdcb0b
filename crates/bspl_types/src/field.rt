ghost use Rattle.std.specs.Prelude.{◌≡◌, ◌≢◌, ℕ, ◌<◌, ◌^◌, ◌↔◌, false, List, [], ◌∷◌, ◌++◌};
ghost use Rattle.std.specs.Prelude.{IsTrue, MatchOption};
ghost use Rattle.std.specs.Fmt.{decimal, digit_glyph};
ghost use Rattle.bspl_types.specs.ValueSpelling.{byte_spelling};
ghost use Rattle.bspl_types.specs.inner.Spelling.{BeginsWithNone, SpellsText};

use super::buffer::Buffer;
use super::spelling::is_plain;
use super::text::Text32;
use text_lines::{numerals_are_decimals, numerals_differ, read_decimal};

/// The number that the field spells, if it spells one of 64 bits.
pub fn read_number(field: &[u8]) -> Option<u64>
    ensures { MatchOption result
        ((n : ℕ) → n < 2 ^ 64 → field.now ≢ decimal n) (λ n. field.now ≡ decimal n) }
{
    // laws: a numeral is what the standard library writes, and that of one number
    numerals_are_decimals();
    numerals_differ();
    read_decimal(field, u64::MAX).ok()
}

/// The text that is spelled before the closing quote, if that quote ends the field.
pub fn read_text(field: &[u8]) -> Option<Text32>
    ensures { MatchOption result
        ((text : List ℕ) → ¬ SpellsText field.now text) (SpellsText field.now) }
{
    let mut text = Buffer::new();
    let mut rest = field;
    'bytes: loop {
        if is_closing_quote(rest) {
            return Some(Text32::of(text.as_slice()));
        }
        let (byte, after) = read_byte(rest)?;
        if text.len() == 32 {
            return None;
        }
        text.push(byte);
        rest = after;
    }
}

/// Whether the closing quote is all that is left.
fn is_closing_quote(rest: &[u8]) -> bool
    ensures { IsTrue result ↔ (rest.now ≡ 34 ∷ []) }
{
    rest == b"\"".as_slice()
}

/// The first byte that is spelled, and what follows its spelling.
fn read_byte(field: &[u8]) -> Option<(u8, &[u8])>
    ensures { MatchOption result (BeginsWithNone field.now)
        (λ read. field.now ≡ byte_spelling read.0 ++ read.1.now) }
{
    match field {
        [b'\\', high, low, after @ ..] => Some((escaped_byte(*high, *low)?, after)),
        [byte, after @ ..] if is_plain(*byte) => Some((*byte, after)),
        _ => None,
    }
}

/// The byte whose spelling ends with the two digits.
fn escaped_byte(high: u8, low: u8) -> Option<u8>
    ensures { MatchOption result
        ((b : ℕ) → b < 256 → 92 ∷ high ∷ low ∷ [] ≢ byte_spelling b)
        (λ b. 92 ∷ high ∷ low ∷ [] ≡ byte_spelling b) }
{
    let byte = hex_value(high)? * 16 + hex_value(low)?;
    if is_plain(byte) { None } else { Some(byte) }
}

/// The value of the digit, if it is one in lower case.
fn hex_value(digit: u8) -> Option<u8>
    ensures { MatchOption result
        ((d : ℕ) → d < 16 → digit ≢ digit_glyph false d)
        (λ d. (d < 16) × (digit ≡ digit_glyph false d)) }
{
    match digit {
        b'0'..=b'9' => Some(digit - b'0'),
        b'a'..=b'f' => Some(digit - b'a' + 10),
        _ => None,
    }
}
