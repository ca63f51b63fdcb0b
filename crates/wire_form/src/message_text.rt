ghost use Rattle.std.specs.Prelude.{◌≡◌, ◌++◌, OnOk};
ghost use Rattle.serde_json.specs.Written.{compact_text};
ghost use Rattle.bspl_types.specs.Expansion.{message_of};
ghost use Rattle.wire_form.specs.Reply.{message_data};

use super::named_values::push_values;
use super::names::message_name;
use super::quoted::push_quoted;
use bspl_types::{Carried, Expanded, Stamped};
use list_base::{Bytes, NoMemory};
use std::alloc::Global;
use text_lines::{numerals_are_decimals, push_decimal};

/// Writes a message, as its receiver is to be asked to receive it.
pub fn push_message(
    alloc: Global,
    text: &mut Bytes,
    x: &Expanded,
    message: &Stamped,
) -> Result<(), NoMemory>
    ensures { OnOk result (text.new ≡ text.old ++ compact_text (message_data x.now message.now)) }
{
    // law: the numerals of 64 bits are those of the standard library
    numerals_are_decimals();
    let instance = &message.instance;
    text.append(b"{\"message\":")?;
    push_quoted(text, message_name(x, instance.message))?;
    text.append(b",\"number\":")?;
    push_decimal(text, u64::from(message.number))?;
    text.append(b",\"stamp\":")?;
    push_decimal(text, message.stamp)?;
    text.append(b",\"values\":{")?;
    let carried = carried_of(x, instance.message);
    push_values(alloc, text, x, carried, instance.values.as_slice())?;
    text.push(b'}')
}

/// The parameters of the message of that number, or none past the last.
fn carried_of(x: &Expanded, message: u32) -> &[Carried]
    ensures { result.now ≡ (message_of x.now message).carried }
{
    match x.messages.as_slice().get(message as usize) {
        Some(message) => message.carried.as_slice(),
        None => &[],
    }
}
