ghost use Rattle.std.specs.Prelude.{◌≡◌, ◌<◌, ◌++◌, IfSome, length, map, OnOk};
ghost use Rattle.std.specs.List.{after_first, before_first, position};
ghost use Rattle.html.specs.Fragment.{escaped, escaped_byte, fitted, fragment_of, fragment_text};
ghost use Rattle.html.specs.Fragment.{is_hole, as_html};

use super::wording::{AMPERSAND, APOSTROPHE, GREATER, LESS, QUOTE, UNKNOWN};
use list_base::{Bytes, NoMemory};
use text_lines::push_decimal;

/// A part of a page.
#[derive(Clone, Copy)]
pub enum Fragment<'a> {
    /// Markup, as it is written.
    Tag(&'a [u8]),
    /// Words, which are escaped.
    Words(&'a [u8]),
    /// A number, in decimal.
    Number(u64),
}

/// Appends the template, with the fragments in its holes.
#[tactic(auto, using(crate::proofs::TemplateLemmas::fragment_filled, crate::proofs::TemplateLemmas::rest_written))]
pub fn fill(text: &mut Bytes, template: &[u8], fragments: &[Fragment<'_>]) -> Result<(), NoMemory>
    ensures { OnOk result (text.new ≡
        text.old ++ as_html (fitted template.now (map fragment_of fragments.now))) }
{
    let mut rest = template;
    for fragment in fragments {
        let (before, after) = split_hole(rest);
        text.append(before)?;
        push_fragment(text, fragment)?;
        rest = after;
    }
    text.append(rest)
}

/// What stands before the first hole, and what after it.
#[tactic(auto, using(crate::proofs::TemplateLemmas::hole_found, crate::proofs::TemplateLemmas::no_hole))]
fn split_hole(template: &[u8]) -> (&[u8], &[u8])
    ensures before { result.0.now ≡ before_first is_hole template.now }
    ensures after { result.1.now ≡ after_first is_hole template.now }
{
    match hole_index(template) {
        Some(hole) => (&template[..hole], &template[hole + 1..]),
        None => (template, b""),
    }
}

/// The index of the first hole.
fn hole_index(template: &[u8]) -> Option<usize>
    ensures first { result ≡ position is_hole template.now }
    ensures within { IfSome result (λ hole. hole < length template.now) }
{
    template.iter().position(|byte| *byte == b'$')
}

/// Appends the fragments.
pub fn push_fragments(text: &mut Bytes, fragments: &[Fragment<'_>]) -> Result<(), NoMemory>
    ensures { OnOk result (text.new ≡ text.old ++ as_html (map fragment_of fragments.now)) }
{
    for fragment in fragments {
        push_fragment(text, fragment)?;
    }
    Ok(())
}

/// Appends one fragment.
fn push_fragment(text: &mut Bytes, fragment: &Fragment<'_>) -> Result<(), NoMemory>
    ensures { OnOk result (text.new ≡ text.old ++ fragment_text (fragment_of fragment.now)) }
{
    match fragment {
        Fragment::Tag(tag) => text.append(tag),
        Fragment::Words(words) => push_words(text, words),
        Fragment::Number(number) => push_decimal(text, *number),
    }
}

/// Appends the words, escaped.
fn push_words(text: &mut Bytes, words: &[u8]) -> Result<(), NoMemory>
    ensures { OnOk result (text.new ≡ text.old ++ escaped words.now) }
{
    for byte in words {
        push_byte(text, *byte)?;
    }
    Ok(())
}

/// Appends a byte, escaped.
fn push_byte(text: &mut Bytes, byte: u8) -> Result<(), NoMemory>
    ensures { OnOk result (text.new ≡ text.old ++ escaped_byte byte) }
{
    match byte {
        b'"' => text.append(QUOTE),
        b'&' => text.append(AMPERSAND),
        b'\'' => text.append(APOSTROPHE),
        b'<' => text.append(LESS),
        b'>' => text.append(GREATER),
        b'\n' | b' '..=b'~' => text.push(byte),
        _ => text.append(UNKNOWN),
    }
}
