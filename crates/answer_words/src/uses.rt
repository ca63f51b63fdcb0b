ghost use Rattle.std.specs.Prelude.{◌≡◌, ◌++◌, OnOk};
ghost use Rattle.std.specs.Option.{option_map};
ghost use Rattle.answer_words.specs.Uses.{asked_text, body_use, first_of, item_use, kind_word};
ghost use Rattle.answer_words.specs.Uses.{near_text, param_use_at, role_use_at, unknown_text, use_of};
ghost use Rattle.answer_words.specs.Uses.{use_text, word_at};

use super::names::{declared_as, protocol_names};
use super::near_names::nearest;
use super::sentences::push_around;
use super::wording::{self, details};
use bspl_parser::{Declaration, Document, Formal, Item, Word};
use list_base::{Bytes, NoMemory};
use std::alloc::Global;

/// What a name is used as.
#[derive(Clone, Copy)]
pub enum Kind {
    Role,
    Parameter,
    Protocol,
}

/// The use of a name.
#[derive(Clone, Copy)]
pub struct Use<'d> {
    pub kind: Kind,
    pub name: &'d [u8],
}

/// The use of the word, if it stands at the offset.
fn word_at<'d>(kind: Kind, offset: u64, word: &'d Word<'_>) -> Option<Use<'d>>
    ensures { option_map use_of result ≡ word_at kind offset word.now }
{
    if word.offset == offset {
        Some(Use {
            kind,
            name: word.text.as_slice(),
        })
    } else {
        None
    }
}

/// The first use among roles.
fn role_at<'d>(offset: u64, words: &'d [Word<'_>]) -> Option<Use<'d>>
    ensures { option_map use_of result ≡ role_use_at offset words.now }
{
    for word in words {
        if let Some(found) = word_at(Kind::Role, offset, word) {
            return Some(found);
        }
    }
    None
}

/// The first use among adorned parameters.
fn param_at<'d>(offset: u64, params: &'d [Formal<'_>]) -> Option<Use<'d>>
    ensures { option_map use_of result ≡ param_use_at offset params.now }
{
    for param in params {
        if let Some(found) = word_at(Kind::Parameter, offset, &param.name) {
            return Some(found);
        }
    }
    None
}

/// The first of two answers, or the second.
fn first_of<'d>(one: Option<Use<'d>>, other: Option<Use<'d>>) -> Option<Use<'d>>
    ensures { option_map use_of result ≡
        first_of (option_map use_of one.entry) (option_map use_of other.entry) }
{
    match one {
        Some(found) => Some(found),
        None => other,
    }
}

/// The use in a message or in a reference.
fn item_use<'d>(offset: u64, item: &'d Item<'_>) -> Option<Use<'d>>
    ensures { option_map use_of result ≡ item_use offset item.now }
{
    match item {
        Item::Message(message) => {
            let sender = word_at(Kind::Role, offset, &message.sender);
            let receiver = word_at(Kind::Role, offset, &message.receiver);
            let params = param_at(offset, message.params.as_slice());
            first_of(first_of(sender, receiver), params)
        }
        Item::Reference(reference) => {
            let protocol = word_at(Kind::Protocol, offset, &reference.protocol);
            let roles = role_at(offset, reference.roles.as_slice());
            let params = param_at(offset, reference.params.as_slice());
            first_of(protocol, first_of(roles, params))
        }
    }
}

/// The use in a body.
fn body_use<'d>(offset: u64, body: &'d [Item<'_>]) -> Option<Use<'d>>
    ensures { option_map use_of result ≡ body_use offset body.now }
{
    for item in body {
        if let Some(found) = item_use(offset, item) {
            return Some(found);
        }
    }
    None
}

/// Appends the line on the name that is used at the offset.
pub(crate) fn push_unknown(
    alloc: Global,
    text: &mut Bytes,
    document: &Document<'_>,
    offset: u64,
) -> Result<(), NoMemory>
    ensures { let protocols = document.now.protocols in
        OnOk result (text.new ≡ text.old ++ unknown_text protocols offset protocols) }
{
    let protocols = document.protocols.as_slice();
    for protocol in protocols {
        if let Some(found) = body_use(offset, protocol.body.as_slice()) {
            return push_use(alloc, text, protocols, protocol, found);
        }
    }
    Ok(())
}

/// Appends the line on a name that is used in the protocol.
fn push_use(
    alloc: Global,
    text: &mut Bytes,
    protocols: &[Declaration<'_>],
    protocol: &Declaration<'_>,
    found: Use<'_>,
) -> Result<(), NoMemory>
    ensures { OnOk result
        (text.new ≡ text.old ++ use_text protocols.now protocol.now (use_of found.entry)) }
{
    let names = declared_as(alloc, protocols, protocol, found.kind)?;
    push_near(text, found.kind, nearest(found.name, names.as_slice()))
}

/// Appends the line on a protocol that is asked for.
pub(crate) fn push_asked(
    alloc: Global,
    text: &mut Bytes,
    document: &Document<'_>,
    name: &[u8],
) -> Result<(), NoMemory>
    ensures { OnOk result (text.new ≡ text.old ++ asked_text name.now document.now) }
{
    let names = protocol_names(alloc, document.protocols.as_slice())?;
    push_near(text, Kind::Protocol, nearest(name, names.as_slice()))
}

/// Appends the line on what a name should be.
fn push_near(text: &mut Bytes, kind: Kind, near: Option<&[u8]>) -> Result<(), NoMemory>
    ensures { OnOk result
        (text.new ≡ text.old ++ near_text kind (option_map (λ near. near.now) near.entry)) }
{
    let word = kind_word(kind);
    match near {
        Some(near) => {
            push_around(
                text,
                details::NEAREST,
                word,
                details::THAT_IS_DECLARED,
                near,
                wording::FULL_STOP,
            )
        }
        None => {
            let end = details::NEARLY_THIS_ONE;
            push_around(text, details::NO_NAME, word, end, b"", b"")
        }
    }
}

/// The word for a use.
fn kind_word(kind: Kind) -> &'static [u8]
    ensures { result.now ≡ kind_word kind }
{
    match kind {
        Kind::Role => details::ROLE,
        Kind::Parameter => details::PARAMETER,
        Kind::Protocol => details::PROTOCOL,
    }
}
