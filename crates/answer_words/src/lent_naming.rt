ghost use Rattle.std.specs.Prelude.{◌≡◌, ◌∷◌, [], IfOk, Some, map};
ghost use Rattle.std.specs.List.{find, list_any};
ghost use Rattle.std.specs.Option.{option_map};
ghost use Rattle.std.specs.Str.{bytes_eq};
ghost use Rattle.bspl_types.specs.Choice.{is_chosen};
ghost use Rattle.bspl_types.specs.Expansion.{param_name, role_name};
ghost use Rattle.answer_words.specs.Meant.{names_nothing};
ghost use Rattle.answer_words.specs.Namings.{carried_by, message_naming, out_naming};
ghost use Rattle.answer_words.specs.Namings.{param_naming, role_naming, sent_naming};
ghost use Rattle.answer_words.specs.inner.LentNaming.{naming_of};

use super::messages::{param_name, role_name};
use super::names::LentNames;
use super::wording::details;
use bspl_types::{Adornment, Carried, Expanded, Message, Named};
use list_base::{NoMemory, Seq};
use std::alloc::Global;

/// A name that is given, the word for what it is to name, and the names that may stand for it.
#[derive(Drop)]
pub struct LentNaming<'a> {
    pub kind: &'static [u8],
    pub given: &'a [u8],
    pub names: LentNames<'a>,
}

/// Any role.
pub(crate) fn role_naming<'a>(
    alloc: Global,
    x: &'a Expanded,
    given: &'a [u8],
) -> Result<LentNaming<'a>, NoMemory>
    ensures { IfOk result (λ naming. naming_of naming ≡ role_naming x.now given.now) }
{
    Ok(LentNaming {
        kind: details::ROLE,
        given,
        names: names_in(alloc, x.roles.as_slice())?,
    })
}

/// Any message.
pub(crate) fn message_naming<'a>(
    alloc: Global,
    x: &'a Expanded,
    given: &'a [u8],
) -> Result<LentNaming<'a>, NoMemory>
    ensures { IfOk result (λ naming. naming_of naming ≡ message_naming x.now given.now) }
{
    Ok(LentNaming {
        kind: details::MESSAGE,
        given,
        names: names_in(alloc, x.messages.as_slice())?,
    })
}

/// Any parameter.
pub(crate) fn param_naming<'a>(
    alloc: Global,
    x: &'a Expanded,
    given: &'a [u8],
) -> Result<LentNaming<'a>, NoMemory>
    ensures { IfOk result (λ naming. naming_of naming ≡ param_naming x.now given.now) }
{
    Ok(LentNaming {
        kind: details::PARAMETER,
        given,
        names: names_in(alloc, x.params.as_slice())?,
    })
}

/// A message that the role sends.
pub(crate) fn sent_naming<'a>(
    alloc: Global,
    x: &'a Expanded,
    role: &[u8],
    given: &'a [u8],
) -> Result<LentNaming<'a>, NoMemory>
    ensures { IfOk result (λ naming. naming_of naming ≡ sent_naming x.now role.now given.now) }
{
    let mut names = Seq::new(alloc);
    for message in x.messages.as_slice() {
        if role_name(x, message.sender) == role {
            names.push(message.name.as_slice())?;
        }
    }
    Ok(LentNaming {
        kind: details::MESSAGE,
        given,
        names,
    })
}

/// An `out` parameter of the message, and no key.
pub(crate) fn out_naming<'a>(
    alloc: Global,
    x: &'a Expanded,
    message: &[u8],
    given: &'a [u8],
) -> Result<LentNaming<'a>, NoMemory>
    ensures { IfOk result (λ naming. naming_of naming ≡ out_naming x.now message.now given.now) }
{
    let mut names = Seq::new(alloc);
    let list = carried_by(x.messages.as_slice(), message);
    for carried in list {
        if is_chosen(x.keys.as_slice(), *carried) {
            names.push(param_name(x, carried.param))?;
        }
    }
    Ok(LentNaming {
        kind: details::PARAMETER,
        given,
        names,
    })
}

/// The naming, if none of the names is the one that is given.
pub(crate) fn if_nothing(naming: LentNaming<'_>) -> Option<LentNaming<'_>>
    ensures { option_map naming_of result ≡ find names_nothing (naming_of naming.entry ∷ []) }
{
    if is_among(naming.given, naming.names.as_slice()) {
        None
    } else {
        Some(naming)
    }
}

/// The names of the items.
fn names_in<'a, T: Named>(alloc: Global, items: &'a [T]) -> Result<LentNames<'a>, NoMemory>
    ensures { IfOk result (λ names. map (λ name. name.now) names ≡ map T.name items.now) }
{
    let mut names = Seq::new(alloc);
    for item in items {
        names.push(item.name())?;
    }
    Ok(names)
}

/// Whether the name is among these.
fn is_among(name: &[u8], names: &[&[u8]]) -> bool
    ensures { result ≡ list_any (bytes_eq name.now) (map (λ other. other.now) names.now) }
{
    for other in names {
        if name == *other {
            return true;
        }
    }
    false
}

/// What the first message of the name carries.
fn carried_by<'a>(messages: &'a [Message], name: &[u8]) -> &'a [Carried]
    ensures { result.now ≡ carried_by (find (λ m. bytes_eq m.name name.now) messages.now) }
{
    for message in messages {
        if message.name.as_slice() == name {
            return message.carried.as_slice();
        }
    }
    &[]
}

/// Whether the parameter is adorned `out`, and no key.
fn is_chosen(keys: &[u32], c: Carried) -> bool
    ensures { result ≡ is_chosen keys.now c }
{
    matches!(c.adornment, Adornment::Out) && !keys.contains(&c.param)
}
