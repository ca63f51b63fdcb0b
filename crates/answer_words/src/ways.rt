ghost use Rattle.std.specs.Prelude.{◌≡◌, ◌≢◌, ℕ, ◌++◌, ◌∷◌, [], IfOk, List, MatchOption, OnOk};
ghost use Rattle.std.specs.List.{find, flat_map};
ghost use Rattle.std.specs.Option.{option_map};
ghost use Rattle.std.specs.Str.{bytes_eq};
ghost use Rattle.protocol_paths.specs.Path.{item_messages};
ghost use Rattle.protocol_paths.specs.Prefix.{numbered_name};
ghost use Rattle.bspl_types.specs.Limits.{depth_limit};
ghost use Rattle.answer_words.specs.Ways.{by_reference, found_text, name_through, offsets_of};
ghost use Rattle.answer_words.specs.Ways.{way_text, way_to, ways_text};

use super::arity::protocol_named;
use super::place::{place_of, push_place};
use super::wording::details;
use bspl_parser::{Declaration, Document, Item, Schema};
use list_base::{Bytes, NoMemory, Seq};
use std::alloc::Global;
use text_lines::{numerals_are_decimals, push_decimal};

/// The offset of a message, and then those of the references by which it comes.
type OffsetList = Seq<u64>;

/// The most references by which a message of an expansion comes.
const MOST_REFERENCES: u8 = 8;

/// Appends the lines for each protocol that has a message of that name in its expansion.
pub(crate) fn push_ways(
    alloc: Global,
    text: &mut Bytes,
    input: &[u8],
    document: &Document<'_>,
    name: &[u8],
) -> Result<(), NoMemory>
    ensures { let protocols = document.now.protocols in
        OnOk result (text.new ≡ text.old ++ ways_text input.now protocols name.now protocols) }
{
    let protocols = document.protocols.as_slice();
    for top in protocols {
        push_way_in(alloc, text, input, protocols, top, name)?;
    }
    Ok(())
}

/// Appends the lines for the protocol.
fn push_way_in(
    alloc: Global,
    text: &mut Bytes,
    input: &[u8],
    protocols: &[Declaration<'_>],
    top: &Declaration<'_>,
    name: &[u8],
) -> Result<(), NoMemory>
    ensures { OnOk result (text.new ≡ text.old ++ found_text input.now top.now
        (way_to depth_limit protocols.now top.now name.now)) }
{
    match way_to(alloc, protocols, top, name, MOST_REFERENCES)? {
        Some(offsets) => push_way(text, input, top.name.text.as_slice(), offsets.as_slice()),
        None => Ok(()),
    }
}

/// Appends the lines on the message and on its references.
fn push_way(
    text: &mut Bytes,
    input: &[u8],
    protocol: &[u8],
    offsets: &[u64],
) -> Result<(), NoMemory>
    ensures { OnOk result
        (text.new ≡ text.old ++ way_text input.now protocol.now offsets.now) }
{
    let [declared, references @ ..] = offsets else {
        return Ok(());
    };
    text.append(details::IN_PROTOCOL)?;
    text.append(protocol)?;
    text.append(details::IS_DECLARED)?;
    push_place(text, &place_of(input, *declared))?;
    push_references(text, input, references)
}

/// Appends a line on each reference.
fn push_references(text: &mut Bytes, input: &[u8], references: &[u64]) -> Result<(), NoMemory>
    ensures { OnOk result
        (text.new ≡ text.old ++ flat_map (by_reference input.now) references.now) }
{
    for offset in references {
        push_by(text, input, *offset)?;
    }
    Ok(())
}

/// Appends the line on a reference.
fn push_by(text: &mut Bytes, input: &[u8], offset: u64) -> Result<(), NoMemory>
    ensures { OnOk result (text.new ≡ text.old ++ by_reference input.now offset) }
{
    text.append(details::BY_REFERENCE)?;
    push_place(text, &place_of(input, offset))
}

/// The way to the first message of that name, by at most so many references.
#[cycle(ways)]
fn way_to(
    alloc: Global,
    protocols: &[Declaration<'_>],
    protocol: &Declaration<'_>,
    name: &[u8],
    most: u8,
) -> Result<Option<OffsetList>, NoMemory>
    ensures { IfOk result (λ way. way ≡
        option_map offsets_of (way_to most protocols.now protocol.now name.now)) }
{
    for (index, item) in protocol.body.as_slice().iter().enumerate() {
        let way = way_by(alloc, protocols, index + 1, item, name, most)?;
        if way.is_some() {
            return Ok(way);
        }
    }
    Ok(None)
}

/// The way that is, or begins with, the item at that position.
#[cycle(ways)]
fn way_by(
    alloc: Global,
    protocols: &[Declaration<'_>],
    position: usize,
    item: &Item<'_>,
    name: &[u8],
    most: u8,
) -> Result<Option<OffsetList>, NoMemory>
    ensures { IfOk result (λ way. way ≡ option_map offsets_of
        (find (λ end. bytes_eq (name_through end) name.now)
        (item_messages most protocols.now (position, item.now)))) }
{
    let reference = match item {
        Item::Message(message) => return own_way(alloc, message, name),
        Item::Reference(reference) => reference,
    };
    if most == 0 {
        return Ok(None);
    }
    let Some(target) = protocol_named(protocols, reference.protocol.text.as_slice()) else {
        return Ok(None);
    };
    let Some(rest) = after_prefix(alloc, name, target.name.text.as_slice(), position)? else {
        return Ok(None);
    };
    let Some(mut way) = way_to(alloc, protocols, target, rest, most - 1)? else {
        return Ok(None);
    };
    way.push(reference.protocol.offset)?;
    Ok(Some(way))
}

/// The way to the message itself, if it has the name.
fn own_way(alloc: Global, message: &Schema<'_>, name: &[u8]) -> Result<Option<OffsetList>, NoMemory>
    ensures { IfOk result (λ way. way ≡ option_map offsets_of
        (find (λ end. bytes_eq (name_through end) name.now) (([], message.now) ∷ []))) }
{
    if message.name.text.as_slice() != name {
        return Ok(None);
    }
    let mut way = Seq::new(alloc);
    way.push(message.name.offset)?;
    Ok(Some(way))
}

/// What comes after the prefix of a reference in the name, if it begins with that.
fn after_prefix<'n>(
    alloc: Global,
    name: &'n [u8],
    target: &[u8],
    position: usize,
) -> Result<Option<&'n [u8]>, NoMemory>
    ensures { IfOk result (λ found. MatchOption found
        ((rest : List ℕ) → name.now ≢ numbered_name target.now position ++ rest)
        (λ rest. name.now ≡ numbered_name target.now position ++ rest.now)) }
{
    let prefix = numbered_name(alloc, target, position)?;
    Ok(name.strip_prefix(prefix.as_slice()))
}

/// The prefix of a reference.
fn numbered_name(alloc: Global, target: &[u8], position: usize) -> Result<Bytes, NoMemory>
    ensures { IfOk result (λ prefix. prefix ≡ numbered_name target.now position) }
{
    // law: a numeral is a number in decimal
    numerals_are_decimals();
    let mut prefix = Bytes::from_slice(alloc, target)?;
    prefix.push(b'#')?;
    push_decimal(&mut prefix, position as u64)?;
    prefix.push(b'.')?;
    Ok(prefix)
}
