ghost use Rattle.std.specs.Prelude.{◌≡◌, ◌≢◌, ◌*◌, ◌≤◌, length, IfSome, MatchOption, Some};
ghost use Rattle.std.specs.Int.{from_le_bytes, w32, w64};
ghost use Rattle.std.specs.List.{All};
ghost use Rattle.stamped_history.specs.declared.entry.Entry.{Entry};
ghost use Rattle.bspl_types.specs.Adornment.{valued};
ghost use Rattle.bspl_types.specs.Value.{IsValue};
ghost use Rattle.role_journal.specs.EntryBody.{IsEntry, entry_body};
ghost use Rattle.role_journal.specs.inner.Reading.{HasValues, event_of, value_in, values_in};

use super::body::{Body, FIELD, HEAD};
use super::instance::instance_with;
use bspl_types::{Admitted, Carried, Event, Instance, Text32, Value, Values};
use stamped_history::Entry;

/// The entry of a history of the protocol that has this body, if there is one. What the fields hold
/// is written again and compared, so that each byte counts.
pub fn entry_of(a: &Admitted, body: &[u8]) -> Option<Entry>
    requires { length body.now ≡ 561 }
    ensures { MatchOption result
        ((e : Entry) → IsEntry a.now e → body.now ≢ entry_body e)
        (λ e. IsEntry a.now e × (body.now ≡ entry_body e)) }
{
    let entry = read_fields(a, body)?;
    if Body::of(&entry).as_slice() == body {
        Some(entry)
    } else {
        None
    }
}

/// The entry whose fields the body holds, whatever its other bytes are.
fn read_fields(a: &Admitted, body: &[u8]) -> Option<Entry>
    requires { length body.now ≡ 561 }
    ensures good { IfSome result (IsEntry a.now) }
    ensures only { (e : Entry) → IsEntry a.now e → body.now ≡ entry_body e → result ≡ Some e }
{
    let message = u32_in(&body[1..5]);
    let count = count_values(a, message)?;
    let values = values_in(count, &body[HEAD..]);
    let instance = instance_with(a, message, &values);
    let kind = body[0];
    Some(Entry {
        event: event_of(kind, instance),
        stamp: u64_in(&body[5..13]),
        number: u32_in(&body[13..HEAD]),
    })
}

/// The emission of the instance, or else its receipt.
fn event_of(kind: u8, instance: Instance) -> Event
    ensures { result ≡ event_of kind instance }
{
    if kind == 0 {
        Event::Emit(instance)
    } else {
        Event::Receive(instance)
    }
}

/// The value of a field.
fn value_in(field: &[u8]) -> Value
    requires { length field.now ≡ 34 }
    ensures value { result ≡ value_in field.now }
    ensures good { IsValue result }
{
    if field[0] == 0 {
        return Value::Number(u64_in(&field[2..10]));
    }
    let len = usize::from(field[1]).min(32);
    Value::Text(Text32::of(&field[2..2 + len]))
}

/// The values of so many fields.
fn values_in(count: usize, fields: &[u8]) -> Values
    requires few { count ≤ 16 }
    requires long { 34 * count ≤ length fields.now }
    ensures values { result ≡ values_in count fields.now }
    ensures good { All IsValue result }
{
    let mut values = Values::new();
    let mut remaining = fields;
    for _ in 0..count {
        let (field, rest) = remaining.split_at(FIELD);
        values.push(value_in(field));
        remaining = rest;
    }
    values
}

/// How many values an instance of the message has, if there is such a message.
fn count_values(a: &Admitted, message: u32) -> Option<usize>
    ensures { MatchOption result (length a.now.messages ≤ message)
        (λ count. HasValues a.now message count) }
{
    let x = a.expanded();
    if message as usize >= x.messages.len() {
        return None;
    }
    Some(count_valued(x.message_at(message).carried.as_slice()))
}

/// How many values an instance of these parameters has.
fn count_valued(carried: &[Carried]) -> usize
    ensures { result ≡ length (valued carried.now) }
{
    carried.iter().filter(|c| c.adornment.has_value()).count()
}

/// The number of four bytes, the lowest first.
fn u32_in(bytes: &[u8]) -> u32
    requires { length bytes.now ≡ 4 }
    ensures { result ≡ from_le_bytes w32 bytes.now }
{
    u32::from_le_bytes([bytes[0], bytes[1], bytes[2], bytes[3]])
}

/// The number of eight bytes, the lowest first.
fn u64_in(bytes: &[u8]) -> u64
    requires { length bytes.now ≡ 8 }
    ensures { result ≡ from_le_bytes w64 bytes.now }
{
    u64::from_le_bytes([
        bytes[0], bytes[1], bytes[2], bytes[3], bytes[4], bytes[5], bytes[6], bytes[7],
    ])
}
