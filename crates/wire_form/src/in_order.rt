ghost use Rattle.std.specs.Prelude.{◌≡◌, ◌<◌, IfSome, IsUtf8, Some};
ghost use Rattle.json.specs.Value.{value_view};
ghost use Rattle.serde_json.specs.Data.{object};
ghost use Rattle.serde_json.specs.Read.{of_json, read};
ghost use Rattle.wire_form.specs.Request.{IsNumbered, attempt_data, fields_data, request_data};
ghost use Rattle.wire_form.specs.Request.{sent_data, texts_data};
ghost use Rattle.wire_form.specs.Texts.{texts_of};
ghost use Rattle.wire_form.specs.inner.Asked.{fields_of, request_of};

use super::asked::{Asked, AskedEmission, AskedReceipt, Field};
use super::json_parts::{items_of, member_named, members_of, number_in, text_in};
use super::sorted::insert;
use json::{Reader, Scratch, Value};
use std::alloc::Global;

/// How deep arrays and objects may nest.
const DEPTH: usize = 127;

/// The most that a number of 32 bits is.
const MOST_NUMBER: u64 = 4_294_967_295;

/// What the body asks for, if each of its objects but that of the values has its members in the
/// order of their names. Of any other body nothing is said, nor if memory runs out.
pub(crate) fn asked_in_order<'a>(
    alloc: Global,
    scratch: &'a mut Scratch,
    body: &'a [u8],
) -> Option<Asked<'a>>
    ensures { IfSome result (λ a. IsUtf8 body.now × IsNumbered (request_of a) ×
        (read body.now ≡ Some (request_data (request_of a)))) }
{
    let Ok(text) = std::str::from_utf8(body) else {
        return None;
    };
    let value = value_of(alloc, text, scratch)?;
    request_in(alloc, &value)
}

/// The value that the text is.
#[tactic(auto, using(crate::proofs::InOrderLemmas::read_whole))]
fn value_of<'a>(alloc: Global, text: &'a str, scratch: &'a mut Scratch) -> Option<Value<'a>>
    ensures { IfSome result (λ v. read text.now ≡ of_json (value_view v)) }
{
    let Ok(mut reader) = Reader::new(text, scratch) else {
        return None;
    };
    let Ok(value) = Value::read(alloc, &mut reader, DEPTH) else {
        return None;
    };
    if reader.next().is_some() {
        return None;
    }
    Some(value)
}

/// The request that the value is.
#[tactic(auto, using(crate::proofs::InOrderLemmas::one_read))]
fn request_in<'a>(alloc: Global, value: &Value<'a>) -> Option<Asked<'a>>
    ensures { IfSome result (λ a. IsNumbered (request_of a) ×
        (of_json (value_view value.now) ≡ Some (request_data (request_of a)))) }
{
    let members = members_of(value)?;
    if let Some((inner, [])) = member_named(members, "receive") {
        return Some(Asked::Receipt(receipt_in(alloc, inner)?));
    }
    if let Some((inner, [])) = member_named(members, "emit") {
        return Some(Asked::Emission(emission_in(alloc, inner)?));
    }
    None
}

/// The receipt that the inner value asks for.
fn receipt_in<'a>(alloc: Global, value: &Value<'a>) -> Option<AskedReceipt<'a>>
    ensures { IfSome result (λ r. (r.number < 4294967296) ×
        (of_json (value_view value.now) ≡ Some (sent_data r.message.now r.number r.stamp
        (fields_data (fields_of r.fields.items))))) }
{
    let (message, rest) = member_named(members_of(value)?, "message")?;
    let (number, rest) = member_named(rest, "number")?;
    let (stamp, rest) = member_named(rest, "stamp")?;
    let (values, rest) = member_named(rest, "values")?;
    if !rest.is_empty() {
        return None;
    }
    Some(AskedReceipt {
        message: text_in(message)?,
        number: number_in(number, MOST_NUMBER)?,
        stamp: number_in(stamp, u64::MAX)?,
        fields: fields_in(alloc, values)?,
    })
}

/// The emission that the inner value asks for.
fn emission_in<'a>(alloc: Global, value: &Value<'a>) -> Option<AskedEmission<'a>>
    ensures { IfSome result (λ e. of_json (value_view value.now) ≡
        Some (attempt_data (texts_of e.key.items) e.message.now (texts_of e.outs.items))) }
{
    let (key, rest) = member_named(members_of(value)?, "key")?;
    let (message, rest) = member_named(rest, "message")?;
    let (outs, rest) = member_named(rest, "outs")?;
    if !rest.is_empty() {
        return None;
    }
    Some(AskedEmission {
        message: text_in(message)?,
        key: texts_in(alloc, key)?,
        outs: texts_in(alloc, outs)?,
    })
}

/// The fields of an object of strings, in the order of their names: the last of two members of one
/// name stays.
fn fields_in<'a>(alloc: Global, value: &Value<'a>) -> Option<Vec<Field<'a>>>
    ensures { IfSome result (λ fields. of_json (value_view value.now) ≡
        Some (object (fields_data (fields_of fields.items)))) }
{
    let members = members_of(value)?;
    let mut fields = Vec::new(alloc);
    for member in members {
        let text = text_in(&member.1)?;
        let name = member.0;
        insert(&mut fields, Field { name, text }).ok()?;
    }
    Some(fields)
}

/// The texts of an array of strings.
fn texts_in<'a>(alloc: Global, value: &Value<'a>) -> Option<Vec<&'a str>>
    ensures { IfSome result (λ texts.
        of_json (value_view value.now) ≡ Some (texts_data (texts_of texts.items))) }
{
    let items = items_of(value)?;
    let mut texts = Vec::new(alloc);
    for item in items {
        let text = text_in(item)?;
        let Ok(()) = texts.push(text) else {
            return None;
        };
    }
    Some(texts)
}
