ghost use Rattle.std.specs.Prelude.{◌≡◌, ◌∷◌, ◌++◌, IfOk, MatchOption, OnOk, map, take};
ghost use Rattle.std.specs.List.{find};
ghost use Rattle.std.specs.Option.{option_map};
ghost use Rattle.bspl_types.specs.declared.expanded.Expanded.{Expanded as SpecExpanded};
ghost use Rattle.text_lines.specs.Fields.{fields_of};
ghost use Rattle.tool_input.specs.Input.{Declares};
ghost use Rattle.answer_words.specs.Meant.{ListsNamings, names_nothing, naming_text};
ghost use Rattle.answer_words.specs.Namings.{namings_of, out_naming, role_naming};
ghost use Rattle.answer_words.specs.Namings.{script_namings, sent_naming};
ghost use Rattle.answer_words.specs.inner.Added.{Adds};
ghost use Rattle.answer_words.specs.inner.LentNaming.{naming_of};
ghost use Rattle.answer_words.specs.inner.NamingLine.{AddsNaming};

use super::fault::Fault;
use super::lent_naming::{
    LentNaming, if_nothing, message_naming, out_naming, param_naming, role_naming, sent_naming,
};
use super::meant::push_meant;
use super::script_rule::without_return;
use bspl_parser::Declaration;
use bspl_types::{Admitted, Expanded};
use list_base::{Bytes, NoMemory};
use std::alloc::Global;
use text_lines::first_field;
use tool_input::{declared_protocol, text_rejection, texts_are_judged_once};

/// Appends the lines for each protocol that the text declares, on the first name that names nothing
/// in it: of the line, or else the name itself.
pub(crate) fn push_namings(
    alloc: Global,
    text: &mut Bytes,
    spelled: &[u8],
    protocols: &[Declaration<'_>],
    fault: Fault,
    line: &[u8],
    name: &[u8],
) -> Result<(), NoMemory>
    ensures { OnOk result (Adds
        (ListsNamings spelled.now (namings_of fault line.now name.now) protocols.now)
        text.old text.new) }
{
    for protocol in protocols {
        push_for(alloc, text, spelled, protocol, fault, line, name)?;
    }
    Ok(())
}

/// Appends the line for the protocol, if the text declares it.
fn push_for(
    alloc: Global,
    text: &mut Bytes,
    spelled: &[u8],
    protocol: &Declaration<'_>,
    fault: Fault,
    line: &[u8],
    name: &[u8],
) -> Result<(), NoMemory>
    ensures { OnOk result (AddsNaming
        spelled.now (namings_of fault line.now name.now) protocol.now text.old text.new) }
{
    let own = protocol.name.text.as_slice();
    match declared(alloc, own, spelled)? {
        Some(admitted) => {
            let found = first_nothing(alloc, admitted.expanded(), fault, line, name)?;
            push_naming(alloc, text, own, &found)
        }
        None => Ok(()),
    }
}

/// The protocol of the name that the text declares, if it declares one.
fn declared(alloc: Global, name: &[u8], text: &[u8]) -> Result<Option<Admitted>, NoMemory>
    ensures { IfOk result (λ declared. MatchOption declared
        ((x : SpecExpanded) → ¬ Declares name.now text.now x) (Declares name.now text.now)) }
{
    // law: a text that declares a protocol is not refused
    texts_are_judged_once();
    match declared_protocol(alloc, name, text) {
        Ok(admitted) => Ok(Some(admitted)),
        Err(refusal) => match text_rejection(refusal) {
            Some(_rejection) => Ok(None),
            None => Err(NoMemory),
        },
    }
}

/// Appends the line on the name that names nothing in the protocol, if there is one.
fn push_naming(
    alloc: Global,
    text: &mut Bytes,
    protocol: &[u8],
    found: &Option<LentNaming<'_>>,
) -> Result<(), NoMemory>
    ensures { OnOk result (text.new ≡
        text.old ++ naming_text protocol.now (option_map naming_of found.now)) }
{
    match found {
        Some(naming) => push_meant(alloc, text, protocol, naming),
        None => Ok(()),
    }
}

/// The first name that names nothing in the expansion.
fn first_nothing<'a>(
    alloc: Global,
    x: &'a Expanded,
    fault: Fault,
    line: &'a [u8],
    name: &'a [u8],
) -> Result<Option<LentNaming<'a>>, NoMemory>
    ensures { IfOk result (λ found. option_map naming_of found ≡
        find names_nothing (namings_of fault line.now name.now x.now)) }
{
    match fault {
        Fault::ScriptName => nothing_in_line(alloc, x, without_return(line)),
        Fault::NoRoleNamed => Ok(if_nothing(role_naming(alloc, x, name)?)),
        Fault::NoParameter => Ok(if_nothing(param_naming(alloc, x, name)?)),
        _ => Ok(if_nothing(message_naming(alloc, x, name)?)),
    }
}

/// The first name in a line of a script that names nothing.
fn nothing_in_line<'a>(
    alloc: Global,
    x: &'a Expanded,
    line: &'a [u8],
) -> Result<Option<LentNaming<'a>>, NoMemory>
    ensures { IfOk result (λ found. option_map naming_of found ≡
        find names_nothing (script_namings x.now (fields_of line.now))) }
{
    let Some((word, rest)) = first_field(line) else {
        return Ok(None);
    };
    let Some((name, more)) = first_field(rest) else {
        return Ok(None);
    };
    if word == b"order".as_slice() {
        return nothing_in_order(alloc, x, name, more);
    }
    let found = if_nothing(message_naming(alloc, x, name)?);
    if found.is_some() || word != b"value".as_slice() {
        return Ok(found);
    }
    nothing_given(alloc, x, name, more)
}

/// The role, or the first of the messages that the role does not send.
fn nothing_in_order<'a>(
    alloc: Global,
    x: &'a Expanded,
    role: &'a [u8],
    messages: &'a [u8],
) -> Result<Option<LentNaming<'a>>, NoMemory>
    ensures { IfOk result (λ found. option_map naming_of found ≡ find names_nothing
        (role_naming x.now role.now ∷ map (sent_naming x.now role.now) (fields_of messages.now))) }
{
    let found = if_nothing(role_naming(alloc, x, role)?);
    if found.is_some() {
        return Ok(found);
    }
    nothing_sent(alloc, x, role, messages)
}

/// The first of the messages that the role does not send.
fn nothing_sent<'a>(
    alloc: Global,
    x: &'a Expanded,
    role: &[u8],
    messages: &'a [u8],
) -> Result<Option<LentNaming<'a>>, NoMemory>
    ensures { IfOk result (λ found. option_map naming_of found ≡
        find names_nothing (map (sent_naming x.now role.now) (fields_of messages.now))) }
{
    let mut rest = messages;
    'messages: while let Some((message, more)) = first_field(rest) {
        let found = if_nothing(sent_naming(alloc, x, role, message)?);
        if found.is_some() {
            return Ok(found);
        }
        rest = more;
    }
    Ok(None)
}

/// The first field, if it is no parameter that the message gives.
fn nothing_given<'a>(
    alloc: Global,
    x: &'a Expanded,
    message: &[u8],
    rest: &'a [u8],
) -> Result<Option<LentNaming<'a>>, NoMemory>
    ensures { IfOk result (λ found. option_map naming_of found ≡ find names_nothing
        (map (out_naming x.now message.now) (take 1 (fields_of rest.now)))) }
{
    match first_field(rest) {
        Some((param, _)) => Ok(if_nothing(out_naming(alloc, x, message, param)?)),
        None => Ok(None),
    }
}
