ghost use Rattle.std.specs.Prelude.{◌≡◌, ◌≤◌, ◌++◌, false, length, map, OnOk};
ghost use Rattle.serde_json.specs.View.{items_of};
ghost use Rattle.serde_json.specs.Written.{compact_text, items_text};
ghost use Rattle.wire_form.specs.Reply.{value_data};
ghost use Rattle.role_questions.specs.declared.question.Question.TheVariants.{Keys};
ghost use Rattle.role_questions.specs.Answers.{key_data};
ghost use Rattle.role_questions.specs.inner.Written.{AddsAnswer, between, of_text};

use super::list_part::end_of;
use super::value_text::push_number;
use bspl_types::{Key, Value};
use list_base::{Bytes, NoMemory};
use local_store::Store;
use std::alloc::Global;
use wire_form::push_value;

/// Appends a part of the keys that are held, and how many these are.
pub(crate) fn push_keys(
    alloc: Global,
    text: &mut Bytes,
    store: &Store,
    from: u32,
    most: u32,
) -> Result<(), NoMemory>
    ensures { OnOk result (AddsAnswer store.now (Keys from most) text.old text.new) }
{
    let count = store.held();
    let end = end_of(from, most, count);
    text.append(b"{\"keys\":[")?;
    push_key_items(alloc, text, store, from, end)?;
    push_of(text, count)
}

/// Appends the keys between these indices as items of an array, with the bracket that ends it.
fn push_key_items(
    alloc: Global,
    text: &mut Bytes,
    store: &Store,
    from: u32,
    end: u32,
) -> Result<(), NoMemory>
    requires { end ≤ length store.now.keys }
    ensures { OnOk result (text.new ≡
        text.old ++ items_text false (items_of (map key_data (between from end store.now.keys)))) }
{
    let mut later = false;
    for row in from..end {
        if later {
            text.push(b',')?;
        }
        push_key(alloc, text, &store.key_at(row as usize))?;
        later = true;
    }
    text.push(b']')
}

/// Appends the values of the key as an array.
fn push_key(alloc: Global, text: &mut Bytes, key: &Key) -> Result<(), NoMemory>
    ensures { OnOk result (text.new ≡ text.old ++ compact_text (key_data key.now)) }
{
    text.push(b'[')?;
    push_key_values(alloc, text, key.as_slice())
}

/// Appends the values as items of an array, with the bracket that ends it.
fn push_key_values(alloc: Global, text: &mut Bytes, values: &[Value]) -> Result<(), NoMemory>
    ensures { OnOk result (text.new ≡
        text.old ++ items_text false (items_of (map value_data values.now))) }
{
    let mut later = false;
    for value in values {
        if later {
            text.push(b',')?;
        }
        push_value(alloc, text, value)?;
        later = true;
    }
    text.push(b']')
}

/// Appends of how many items these are a part, and the bracket that ends the answer.
pub(crate) fn push_of(text: &mut Bytes, count: u32) -> Result<(), NoMemory>
    ensures { OnOk result (text.new ≡ text.old ++ of_text count) }
{
    text.append(b",\"of\":")?;
    push_number(text, u64::from(count))?;
    text.push(b'}')
}
