ghost use Rattle.std.specs.Prelude.{◌≡◌, ◌+◌, ◌++◌, ◌↔◌, IsTrue, OnOk, min};
ghost use Rattle.std.specs.Char.{is_ascii_digit};
ghost use Rattle.std.specs.List.{list_all};
ghost use Rattle.std.specs.Str.Parse.{digits_value};
ghost use Rattle.list_base.specs.Numeral.{IsNumeral, numeral};
ghost use Rattle.text_lines.specs.Decimal.{IsReadUpTo};

use list_base::{Bytes, NoMemory};

/// Why bytes are no number up to a limit.
#[derive(Clone, Copy, Debug, PartialEq, Eq)]
pub enum DecimalError {
    /// They are no number in decimal.
    Form,
    /// They are a number above the limit.
    TooLarge,
}

/// The number that the bytes are in decimal, if it is at most the limit.
pub fn read_decimal(bytes: &[u8], most: u64) -> Result<u64, DecimalError>
    ensures { IsReadUpTo most bytes.now result }
{
    if !is_numeral(bytes) {
        return Err(DecimalError::Form);
    }
    let value = value_of(bytes, most);
    if value <= u128::from(most) {
        Ok(value as u64)
    } else {
        Err(DecimalError::TooLarge)
    }
}

/// Appends the number in decimal. If memory runs out, a part of it may have been appended.
pub fn push_decimal(text: &mut Bytes, number: u64) -> Result<(), NoMemory>
    ensures { OnOk result (text.new ≡ text.old ++ numeral number) }
{
    if number < 10 {
        return text.push(b'0' + number as u8);
    }
    push_decimal(text, number / 10)?;
    text.push(b'0' + (number % 10) as u8)
}

/// Whether each byte is a decimal digit.
pub fn are_digits(bytes: &[u8]) -> bool
    ensures { result ≡ list_all is_ascii_digit bytes.now }
{
    bytes.iter().all(|byte| byte.is_ascii_digit())
}

/// Whether the bytes are `0`, or digits of which the first is not 0.
fn is_numeral(bytes: &[u8]) -> bool
    ensures { IsTrue result ↔ IsNumeral bytes.now }
{
    if !are_digits(bytes) {
        return false;
    }
    match bytes.len() {
        0 => false,
        1 => true,
        _ => bytes[0] != b'0',
    }
}

/// The value of the digits, or the limit and one if it is more.
fn value_of(digits: &[u8], most: u64) -> u128
    requires { IsTrue (list_all is_ascii_digit digits.now) }
    ensures { result ≡ min (digits_value 10 digits.now) (most + 1) }
{
    let above = u128::from(most) + 1;
    let mut value = 0;
    for digit in digits {
        value = (value * 10 + u128::from(*digit - b'0')).min(above);
    }
    value
}
