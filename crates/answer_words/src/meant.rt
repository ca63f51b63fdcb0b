ghost use Rattle.std.specs.Prelude.{◌≡◌, ◌++◌, IfOk, None, OnOk, Some, map, nat_eq};
ghost use Rattle.std.specs.List.{ends_with, find};
ghost use Rattle.std.specs.Option.{option_map};
ghost use Rattle.answer_words.specs.Meant.{meant_text, naming_text, nearest_text, prefixed_name};
ghost use Rattle.answer_words.specs.inner.LentNaming.{naming_of};

use super::lent_naming::LentNaming;
use super::near_names::nearest;
use super::wording::{self, details};
use list_base::{Bytes, NoMemory};
use std::alloc::Global;

/// Appends the line on a name that names nothing in the protocol.
pub(crate) fn push_meant(
    alloc: Global,
    text: &mut Bytes,
    protocol: &[u8],
    naming: &LentNaming<'_>,
) -> Result<(), NoMemory>
    ensures { OnOk result
        (text.new ≡ text.old ++ naming_text protocol.now (Some (naming_of naming.now))) }
{
    text.append(details::IN_PROTOCOL)?;
    text.append(protocol)?;
    match prefixed_name(alloc, naming)? {
        Some(name) => push_prefixed(text, naming, name),
        None => push_nearest(text, naming),
    }
}

/// Appends the name with the prefix of a part.
fn push_prefixed(text: &mut Bytes, naming: &LentNaming<'_>, name: &[u8]) -> Result<(), NoMemory>
    ensures { OnOk result
        (text.new ≡ text.old ++ meant_text (naming_of naming.now) (Some name.now)) }
{
    text.append(details::MAY_BE)?;
    text.append(naming.kind)?;
    text.push(b' ')?;
    text.append(name)?;
    text.append(wording::FULL_STOP)
}

/// Appends the nearest name, or that none is near.
fn push_nearest(text: &mut Bytes, naming: &LentNaming<'_>) -> Result<(), NoMemory>
    ensures { OnOk result
        (text.new ≡ text.old ++ meant_text (naming_of naming.now) None) }
{
    match nearest(naming.given, naming.names.as_slice()) {
        Some(name) => push_near(text, naming, name),
        None => push_none(text, naming),
    }
}

/// Appends the name that is near.
fn push_near(text: &mut Bytes, naming: &LentNaming<'_>, name: &[u8]) -> Result<(), NoMemory>
    ensures { OnOk result
        (text.new ≡ text.old ++ nearest_text (naming_of naming.now) (Some name.now)) }
{
    text.append(details::THE)?;
    text.append(naming.kind)?;
    text.append(details::NEAREST_TO)?;
    text.append(naming.given)?;
    text.append(details::THAT_MAY_STAND)?;
    text.append(name)?;
    text.append(wording::FULL_STOP)
}

/// Appends that none is near.
fn push_none(text: &mut Bytes, naming: &LentNaming<'_>) -> Result<(), NoMemory>
    ensures { OnOk result (text.new ≡ text.old ++ nearest_text (naming_of naming.now) None) }
{
    text.append(details::NO)?;
    text.append(naming.kind)?;
    text.append(details::NEARLY_CALLED)?;
    text.append(naming.given)?;
    text.append(details::MAY_STAND)
}

/// The name with the prefix of a part, if one has it.
fn prefixed_name<'a>(alloc: Global, naming: &LentNaming<'a>) -> Result<Option<&'a [u8]>, NoMemory>
    ensures { IfOk result (λ found. option_map (λ name. name.now) found ≡
        prefixed_name (naming_of naming.now)) }
{
    let mut own = Bytes::from_slice(alloc, b".")?;
    own.append(naming.given)?;
    Ok(first_ending(naming.names.as_slice(), own.as_slice()))
}

/// The first of the names that ends so.
fn first_ending<'a>(names: &[&'a [u8]], end: &[u8]) -> Option<&'a [u8]>
    ensures { option_map (λ name. name.now) result ≡
        find (λ name. ends_with nat_eq name end.now) (map (λ name. name.now) names.now) }
{
    for name in names {
        if name.ends_with(end) {
            return Some(name);
        }
    }
    None
}
