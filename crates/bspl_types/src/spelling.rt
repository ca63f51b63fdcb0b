ghost use Rattle.std.specs.Prelude.{◌≡◌, ◌<◌, ◌≤◌, ◌+◌, false, [], ◌∷◌, ◌++◌, length};
ghost use Rattle.std.specs.Fmt.{decimal, digit_glyph};
ghost use Rattle.bspl_types.specs.Limits.{value_text_limit};
ghost use Rattle.bspl_types.specs.ValueSpelling.{byte_spelling, is_plain, value_spelling};
ghost use Rattle.bspl_types.specs.inner.Spelling.{spelled_bytes};
ghost use Rattle.bspl_types.specs.Value.{IsValue};

use super::buffer::Buffer;
use super::value::Value;

/// The spelling of the value.
pub fn spelled(value: &Value) -> Buffer
    ensures spelling { result ≡ value_spelling value.now }
    ensures value { IsValue value.now }
{
    match value {
        Value::Number(number) => spelled_number(*number),
        Value::Text(text) => spelled_text(text.as_slice()),
    }
}

/// The number in decimal.
fn spelled_number(number: u64) -> Buffer
    ensures { result ≡ decimal number }
{
    if number < 10 {
        let mut digit = Buffer::new();
        digit.push(b'0' + number as u8);
        return digit;
    }
    let mut digits = spelled_number(number / 10);
    digits.push(b'0' + (number % 10) as u8);
    digits
}

/// The text between quotes.
fn spelled_text(text: &[u8]) -> Buffer
    requires { length text.now ≤ value_text_limit }
    ensures { result ≡ 34 ∷ spelled_bytes text.now ++ 34 ∷ [] }
{
    let mut spelled = Buffer::new();
    spelled.push(b'"');
    for byte in text {
        push_byte(&mut spelled, *byte);
    }
    spelled.push(b'"');
    spelled
}

/// Puts the spelling of the byte at the end.
fn push_byte(spelled: &mut Buffer, byte: u8)
    requires { length spelled.old + 3 ≤ 98 }
    ensures { spelled.new ≡ spelled.old ++ byte_spelling byte }
{
    if is_plain(byte) {
        spelled.push(byte);
    } else {
        spelled.push(b'\\');
        spelled.push(hex_digit(byte / 16));
        spelled.push(hex_digit(byte % 16));
    }
}

/// Whether the byte is spelled as itself.
pub fn is_plain(byte: u8) -> bool
    ensures { result ≡ is_plain byte }
{
    33 <= byte && byte <= 126 && !(byte == b'"' || byte == b'\\')
}

/// The digit of that value, a letter in lower case.
fn hex_digit(digit: u8) -> u8
    requires { digit < 16 }
    ensures { result ≡ digit_glyph false digit }
{
    if digit < 10 {
        b'0' + digit
    } else {
        b'a' + (digit - 10)
    }
}
