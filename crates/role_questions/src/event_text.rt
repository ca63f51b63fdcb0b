ghost use Rattle.std.specs.Prelude.{◌≡◌, ◌≤◌, ◌++◌, false, length, map, OnOk};
ghost use Rattle.serde_json.specs.View.{items_of};
ghost use Rattle.serde_json.specs.Written.{compact_text, items_text};
ghost use Rattle.bspl_types.specs.declared.event.Event.TheVariants.{Emit, Receive};
ghost use Rattle.bspl_types.specs.Expansion.{message_of, role_name};
ghost use Rattle.wire_form.specs.Reply.{message_data};
ghost use Rattle.role_questions.specs.declared.question.Question.TheVariants.{History};
ghost use Rattle.role_questions.specs.Answers.{entry_data, event_data, stamped_of};
ghost use Rattle.role_questions.specs.inner.Written.{AddsAnswer, between};

use super::key_text::push_of;
use super::list_part::{end_of, entry_at};
use super::status_text::role_name;
use bspl_types::{Event, Expanded, Stamped};
use list_base::{Bytes, NoMemory};
use local_store::Store;
use stamped_history::Entry;
use std::alloc::Global;
use wire_form::{push_message, push_quoted};

/// Appends a part of the history, and how many events this has.
pub(crate) fn push_history(
    alloc: Global,
    text: &mut Bytes,
    store: &Store,
    from: u32,
    most: u32,
) -> Result<(), NoMemory>
    ensures { OnOk result (AddsAnswer store.now (History from most) text.old text.new) }
{
    let count = store.len();
    let end = end_of(from, most, count);
    text.append(b"{\"history\":[")?;
    push_entries(alloc, text, store, from, end)?;
    push_of(text, count)
}

/// Appends the entries between these indices as items of an array, with the bracket that ends it.
fn push_entries(
    alloc: Global,
    text: &mut Bytes,
    store: &Store,
    from: u32,
    end: u32,
) -> Result<(), NoMemory>
    requires { end ≤ length store.now.entries }
    ensures { OnOk result (text.new ≡ text.old ++ items_text false
        (items_of (map (entry_data store.now.protocol) (between from end store.now.entries)))) }
{
    let x = store.admitted().expanded();
    let mut later = false;
    for index in from..end {
        if later {
            text.push(b',')?;
        }
        push_entry(alloc, text, x, &entry_at(store, index))?;
        later = true;
    }
    text.push(b']')
}

/// Appends the entry: what was sent and to whom, or what was received and from whom.
fn push_entry(alloc: Global, text: &mut Bytes, x: &Expanded, entry: &Entry) -> Result<(), NoMemory>
    ensures { OnOk result (text.new ≡ text.old ++ compact_text (entry_data x.now entry.now)) }
{
    let message = stamped_of(entry);
    match entry.event {
        Event::Emit(_) => push_emission(alloc, text, x, &message),
        Event::Receive(_) => push_receipt(alloc, text, x, &message),
    }
}

/// Appends what was sent and to whom.
fn push_emission(
    alloc: Global,
    text: &mut Bytes,
    x: &Expanded,
    message: &Stamped,
) -> Result<(), NoMemory>
    ensures { OnOk result (text.new ≡ text.old ++ compact_text
        (event_data x.now (Emit message.now.instance) (message_data x.now message.now))) }
{
    text.append(b"{\"sent\":")?;
    push_message(alloc, text, x, message)?;
    text.append(b",\"to\":")?;
    push_quoted(text, receiver_name(x, message.instance.message))?;
    text.push(b'}')
}

/// Appends what was received and from whom.
fn push_receipt(
    alloc: Global,
    text: &mut Bytes,
    x: &Expanded,
    message: &Stamped,
) -> Result<(), NoMemory>
    ensures { OnOk result (text.new ≡ text.old ++ compact_text
        (event_data x.now (Receive message.now.instance) (message_data x.now message.now))) }
{
    text.append(b"{\"from\":")?;
    push_quoted(text, sender_name(x, message.instance.message))?;
    text.append(b",\"received\":")?;
    push_message(alloc, text, x, message)?;
    text.push(b'}')
}

/// The message of the entry, with the entry's stamp.
fn stamped_of(entry: &Entry) -> Stamped
    ensures { result ≡ stamped_of entry.now }
{
    Stamped {
        instance: *entry.event.instance(),
        stamp: entry.stamp,
        number: entry.number,
    }
}

/// The name of the message's receiver, or none past the last message.
pub(crate) fn receiver_name(x: &Expanded, message: u32) -> &[u8]
    ensures { result.now ≡ role_name x.now (message_of x.now message).receiver }
{
    match x.messages.as_slice().get(message as usize) {
        Some(schema) => role_name(x, schema.receiver),
        None => role_name(x, 0),
    }
}

/// The name of the message's sender, or none past the last message.
fn sender_name(x: &Expanded, message: u32) -> &[u8]
    ensures { result.now ≡ role_name x.now (message_of x.now message).sender }
{
    match x.messages.as_slice().get(message as usize) {
        Some(schema) => role_name(x, schema.sender),
        None => role_name(x, 0),
    }
}
