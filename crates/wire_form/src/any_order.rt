ghost use Rattle.std.specs.Prelude.{◌≡◌, ◌≢◌, ◌<◌, ◌↔◌, ℕ, IfOk, IsTrue, List, MatchOption};
ghost use Rattle.std.specs.List.{All};
ghost use Rattle.serde_json.specs.View.{items_view, members_view, view};
ghost use Rattle.wire_form.specs.Request.{NamedField, IsNumbered, Request, attempt_data, fields_data};
ghost use Rattle.wire_form.specs.Request.{request_data, sent_data};
ghost use Rattle.wire_form.specs.Texts.{IsStringItem, texts_in};
ghost use Rattle.wire_form.specs.inner.Asked.{request_of};
ghost use Rattle.wire_form.specs.inner.Found.{AttemptForm, SentForm, attempt_form, fields_in};
ghost use Rattle.wire_form.specs.inner.Found.{request_in, sent_form};

use super::asked::{Asked, AskedEmission, AskedReceipt};
use super::texts::{are_texts, fields_of, has_texts, texts_of};
use list_base::NoMemory;
use serde_json::{Map, Value};
use std::alloc::Global;

/// A message that is to be received, as it is in the JSON.
#[derive(Clone, Copy)]
pub(crate) struct FoundReceipt<'a> {
    pub message: &'a str,
    pub number: u64,
    pub stamp: u64,
    pub values: &'a Map<String, Value>,
}

/// A message that is to be emitted, as it is in the JSON.
#[derive(Clone, Copy)]
pub(crate) struct FoundEmission<'a> {
    pub key: &'a Vec<Value>,
    pub message: &'a str,
    pub outs: &'a Vec<Value>,
}

/// What a value asks for, before names and spellings are read.
#[derive(Clone, Copy)]
pub(crate) enum Found<'a> {
    Receipt(FoundReceipt<'a>),
    Emission(FoundEmission<'a>),
}

/// What the value asks for, if it has exactly the members and kinds of a request.
pub(crate) fn found_in(value: &Value) -> Option<Found<'_>>
    ensures { MatchOption result
        ((r : Request) → IsNumbered r → view value.now ≢ request_data r)
        (λ a. IsNumbered (request_in a) × (view value.now ≡ request_data (request_in a))) }
{
    let mut members = value.as_object()?.iter();
    let (name, inner) = members.next()?;
    if members.next().is_some() {
        return None;
    }
    if name.as_str() == "receive" {
        return Some(Found::Receipt(receipt_in(inner)?));
    }
    if name.as_str() == "emit" {
        return Some(Found::Emission(emission_in(inner)?));
    }
    None
}

/// The receipt that the inner value asks for: its number has 32 bits, and its values are strings.
fn receipt_in(value: &Value) -> Option<FoundReceipt<'_>>
    ensures { MatchOption result
        ((message : List ℕ) (count stamp : ℕ) (fields : List NamedField) → count < 4294967296 →
        view value.now ≢ sent_data message count stamp (fields_data fields))
        (λ r. (r.number < 4294967296) × (view value.now ≡
        sent_data r.message.now r.number r.stamp (fields_data (fields_in r.values.now.entries)))) }
{
    let Some(found) = sent_members(value) else {
        return None;
    };
    if found.number >= 4_294_967_296 {
        return None;
    }
    if has_texts(found.values) {
        return Some(found);
    }
    None
}

/// The emission that the inner value asks for: its values are strings.
fn emission_in(value: &Value) -> Option<FoundEmission<'_>>
    ensures { MatchOption result
        ((key : List (List ℕ)) (message : List ℕ) (outs : List (List ℕ)) →
        view value.now ≢ attempt_data key message outs)
        (λ e. view value.now ≡
        attempt_data (texts_in e.key.now.items) e.message.now (texts_in e.outs.now.items)) }
{
    let Some(found) = attempt_members(value) else {
        return None;
    };
    if has_only_texts(&found) {
        return Some(found);
    }
    None
}

/// Whether the values of the emission are strings.
fn has_only_texts(found: &FoundEmission<'_>) -> bool
    ensures { IsTrue result ↔
        (All IsStringItem found.now.key.now.items × All IsStringItem found.now.outs.now.items) }
{
    are_texts(found.key.as_slice()) && are_texts(found.outs.as_slice())
}

/// The members that tell of a message that was sent, if the value has exactly these.
fn sent_members(value: &Value) -> Option<FoundReceipt<'_>>
    ensures { MatchOption result
        ((form : SentForm) → view value.now ≢ sent_form form)
        (λ r. view value.now ≡ sent_form (record {
          message = r.message.now;
          number = r.number;
          stamp = r.stamp;
          values = members_view r.values.now.entries;
        })) }
{
    let mut members = value.as_object()?.iter();
    let (message_name, message) = members.next()?;
    let (number_name, number) = members.next()?;
    let (stamp_name, stamp) = members.next()?;
    let (values_name, values) = members.next()?;
    if members.next().is_some() {
        return None;
    }
    if message_name.as_str() != "message" || number_name.as_str() != "number" {
        return None;
    }
    if stamp_name.as_str() != "stamp" || values_name.as_str() != "values" {
        return None;
    }
    Some(FoundReceipt {
        message: message.as_str()?,
        number: number.as_u64()?,
        stamp: stamp.as_u64()?,
        values: values.as_object()?,
    })
}

/// The members that tell of a message that is to be sent, if the value has exactly these.
fn attempt_members(value: &Value) -> Option<FoundEmission<'_>>
    ensures { MatchOption result
        ((form : AttemptForm) → view value.now ≢ attempt_form form)
        (λ e. view value.now ≡ attempt_form (record {
          key = items_view e.key.now.items;
          message = e.message.now;
          outs = items_view e.outs.now.items;
        })) }
{
    let mut members = value.as_object()?.iter();
    let (key_name, key) = members.next()?;
    let (message_name, message) = members.next()?;
    let (outs_name, outs) = members.next()?;
    if members.next().is_some() {
        return None;
    }
    if key_name.as_str() != "key" || message_name.as_str() != "message" {
        return None;
    }
    if outs_name.as_str() != "outs" {
        return None;
    }
    Some(FoundEmission {
        key: key.as_array()?,
        message: message.as_str()?,
        outs: outs.as_array()?,
    })
}

/// The request that was found, as its texts.
pub(crate) fn asked_of<'a>(alloc: Global, found: &Found<'a>) -> Result<Asked<'a>, NoMemory>
    ensures { IfOk result (λ a. request_of a ≡ request_in found.now) }
{
    match found {
        Found::Receipt(receipt) => Ok(Asked::Receipt(AskedReceipt {
            message: receipt.message,
            number: receipt.number,
            stamp: receipt.stamp,
            fields: fields_of(alloc, receipt.values)?,
        })),
        Found::Emission(emission) => {
            let key = texts_of(alloc, emission.key.as_slice())?;
            let outs = texts_of(alloc, emission.outs.as_slice())?;
            Ok(Asked::Emission(AskedEmission {
                key,
                message: emission.message,
                outs,
            }))
        }
    }
}
