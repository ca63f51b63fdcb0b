ghost use Rattle.std.specs.Prelude.{◌≡◌, ◌++◌, ◌/◌, ◌%◌, ◌<◌, OnOk};
ghost use Rattle.std.specs.Char.{digit_char};
ghost use Rattle.json.specs.Print.{escape_byte, escape_letter, quoted};
ghost use Rattle.bspl_types.specs.ValueSpelling.{value_spelling};

use bspl_types::Value;
use list_base::{Bytes, NoMemory};
use std::alloc::Global;

/// Writes the bytes as a string of JSON.
pub fn push_quoted(text: &mut Bytes, bytes: &[u8]) -> Result<(), NoMemory>
    ensures { OnOk result (text.new ≡ text.old ++ quoted bytes.now) }
{
    text.push(b'"')?;
    for byte in bytes {
        push_byte(text, *byte)?;
    }
    text.push(b'"')
}

/// Writes the spelling of the value as a string of JSON.
pub fn push_value(alloc: Global, text: &mut Bytes, value: &Value) -> Result<(), NoMemory>
    ensures { OnOk result (text.new ≡ text.old ++ quoted (value_spelling value.now)) }
{
    let mut spelled = Bytes::new(alloc);
    value.write(&mut spelled)?;
    push_quoted(text, spelled.as_slice())
}

/// Writes one byte of a string of JSON.
#[tactic(auto, using(crate::proofs::WritingLemmas::escaped_short, crate::proofs::WritingLemmas::escaped_control, crate::proofs::WritingLemmas::escaped_plain))]
fn push_byte(text: &mut Bytes, byte: u8) -> Result<(), NoMemory>
    ensures { OnOk result (text.new ≡ text.old ++ escape_byte byte) }
{
    let letter = escape_letter(byte);
    if letter > 0 {
        text.push(b'\\')?;
        return text.push(letter);
    }
    if byte < 32 {
        text.append(b"\\u00")?;
        text.push(digit(byte / 16))?;
        return text.push(digit(byte % 16));
    }
    text.push(byte)
}

/// The letter of the byte's short escape, or 0.
fn escape_letter(byte: u8) -> u8
    ensures { result ≡ escape_letter byte }
{
    match byte {
        b'"' | b'\\' => byte,
        8 => b'b',
        12 => b'f',
        10 => b'n',
        13 => b'r',
        9 => b't',
        _ => 0,
    }
}

/// The lower-case hexadecimal digit.
fn digit(value: u8) -> u8
    requires { value < 16 }
    ensures { result ≡ digit_char value }
{
    if value < 10 {
        b'0' + value
    } else {
        b'a' + (value - 10)
    }
}
