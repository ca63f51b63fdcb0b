ghost use Rattle.std.specs.Prelude.{◌≡◌, ◌++◌, false, map, IfOk, OnOk};
ghost use Rattle.std.specs.List.{zip};
ghost use Rattle.serde_json.specs.View.{items_of};
ghost use Rattle.serde_json.specs.Written.{compact_text, items_text};
ghost use Rattle.role_questions.specs.Answers.{form_data, key_value};
ghost use Rattle.role_questions.specs.inner.Written.{form_head, name_items, sent_part};

use super::event_text::receiver_name;
use super::form::{Form, KnownValue, KnownValueList};
use super::value_text::push_known_values;
use bspl_types::{Expanded, Key, Value};
use list_base::{Bytes, NoMemory, Seq};
use std::alloc::Global;
use wire_form::{message_name, param_name, push_quoted};

/// Appends the forms under the key as items of an array, with the bracket that ends it.
pub(crate) fn push_forms(
    alloc: Global,
    text: &mut Bytes,
    x: &Expanded,
    key: &Key,
    forms: &[Form],
) -> Result<(), NoMemory>
    ensures { OnOk result (text.new ≡
        text.old ++ items_text false (items_of (map (form_data x.now key.now) forms.now))) }
{
    let mut later = false;
    for form in forms {
        if later {
            text.push(b',')?;
        }
        push_form(alloc, text, x, key, form)?;
        later = true;
    }
    text.push(b']')
}

/// Appends the form under the key.
fn push_form(
    alloc: Global,
    text: &mut Bytes,
    x: &Expanded,
    key: &Key,
    form: &Form,
) -> Result<(), NoMemory>
    ensures { OnOk result (text.new ≡ text.old ++ compact_text (form_data x.now key.now form.now)) }
{
    let mut values = key_values(alloc, x.keys.as_slice(), key.as_slice())?;
    values.append(form.ins.as_slice())?;
    push_form_head(text, x, form)?;
    push_known_values(alloc, text, x, values.as_slice())?;
    text.push(b'}')
}

/// Appends all of the form but its values.
fn push_form_head(text: &mut Bytes, x: &Expanded, form: &Form) -> Result<(), NoMemory>
    ensures { OnOk result (text.new ≡ text.old ++ form_head x.now form.now) }
{
    text.append(b"{\"message\":")?;
    push_quoted(text, message_name(x, form.message))?;
    text.append(b",\"outs\":[")?;
    push_names(text, x, form.outs.as_slice())?;
    text.append(truth_part(form.sent))?;
    push_quoted(text, receiver_name(x, form.message))?;
    text.append(b",\"values\":")
}

/// What stands between the names and the receiver: whether the message was emitted before.
fn truth_part(sent: bool) -> &'static [u8]
    ensures { result.now ≡ sent_part sent }
{
    if sent {
        b",\"sent\":true,\"to\":"
    } else {
        b",\"sent\":false,\"to\":"
    }
}

/// Appends the names of the parameters as items of an array, with the bracket that ends it.
fn push_names(text: &mut Bytes, x: &Expanded, params: &[u32]) -> Result<(), NoMemory>
    ensures { OnOk result (text.new ≡ text.old ++ items_text false (name_items x.now params.now)) }
{
    let mut later = false;
    for param in params {
        if later {
            text.push(b',')?;
        }
        push_quoted(text, param_name(x, *param))?;
        later = true;
    }
    text.push(b']')
}

/// The key parameters with the values of the key.
fn key_values(alloc: Global, keys: &[u32], key: &[Value]) -> Result<KnownValueList, NoMemory>
    ensures { IfOk result (λ list. list ≡ map key_value (zip keys.now key.now)) }
{
    let mut list = Seq::new(alloc);
    let mut left = key;
    for param in keys {
        let Some((value, rest)) = left.split_first() else {
            return Ok(list);
        };
        list.push(KnownValue {
            param: *param,
            value: *value,
        })?;
        left = rest;
    }
    Ok(list)
}
