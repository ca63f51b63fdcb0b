ghost use Rattle.std.specs.Prelude.{◌≡◌, ◌++◌, OnOk, option_copied};
ghost use Rattle.protocol_names.specs.Names.{protocol_of};
ghost use Rattle.answer_words.specs.Arity.{arity_text, counts_text, reference_at, reference_text};

use super::wording::details;
use bspl_parser::{Declaration, Document, Item, Reference};
use list_base::{Bytes, NoMemory};
use text_lines::push_decimal;

/// Appends the line on the reference at the offset.
pub(crate) fn push_arity(
    text: &mut Bytes,
    document: &Document<'_>,
    offset: u64,
) -> Result<(), NoMemory>
    ensures { let protocols = document.now.protocols in
        OnOk result (text.new ≡ text.old ++ arity_text protocols offset protocols) }
{
    let protocols = document.protocols.as_slice();
    for protocol in protocols {
        if let Some(reference) = reference_at(offset, protocol.body.as_slice()) {
            return push_reference(text, protocols, reference);
        }
    }
    Ok(())
}

/// The reference of the body that names its protocol at the offset.
fn reference_at<'d, 't>(offset: u64, body: &'d [Item<'t>]) -> Option<&'d Reference<'t>>
    ensures { option_copied result ≡ reference_at offset body.now }
{
    for item in body {
        if let Item::Reference(reference) = item {
            if reference.protocol.offset == offset {
                return Some(reference);
            }
        }
    }
    None
}

/// The first protocol of the name.
pub(crate) fn protocol_named<'d, 't>(
    protocols: &'d [Declaration<'t>],
    name: &[u8],
) -> Option<&'d Declaration<'t>>
    ensures { option_copied result ≡ protocol_of protocols.now name.now }
{
    for protocol in protocols {
        if protocol.name.text.as_slice() == name {
            return Some(protocol);
        }
    }
    None
}

/// Appends the line on the reference, if its protocol is declared.
fn push_reference(
    text: &mut Bytes,
    protocols: &[Declaration<'_>],
    reference: &Reference<'_>,
) -> Result<(), NoMemory>
    ensures { OnOk result (text.new ≡ text.old ++
        reference_text reference.now (protocol_of protocols.now reference.now.protocol.text)) }
{
    match protocol_named(protocols, reference.protocol.text.as_slice()) {
        Some(protocol) => push_counts(text, reference, protocol),
        None => Ok(()),
    }
}

/// Appends the numbers of the reference beside those of the protocol.
fn push_counts(
    text: &mut Bytes,
    reference: &Reference<'_>,
    protocol: &Declaration<'_>,
) -> Result<(), NoMemory>
    ensures { OnOk result (text.new ≡ text.old ++ counts_text reference.now protocol.now) }
{
    text.append(details::ROLES)?;
    push_decimal(text, reference.roles.len() as u64)?;
    text.append(details::HERE)?;
    push_decimal(text, protocol.roles.len() as u64)?;
    text.append(details::PARAMETERS)?;
    push_decimal(text, reference.params.len() as u64)?;
    text.append(details::HERE)?;
    push_decimal(text, protocol.public.len() as u64)?;
    text.append(details::DECLARED)
}
