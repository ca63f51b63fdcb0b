ghost use Rattle.std.specs.Prelude.{◌≡◌, ◌∷◌, ◌++◌, OnOk};
ghost use Rattle.std.specs.Fmt.{decimal};
ghost use Rattle.bspl_types.specs.Expansion.{message_of, param_name};
ghost use Rattle.bspl_types.specs.ValueSpelling.{value_spelling};

use bspl_types::{Expanded, Value};
use list_base::{Bytes, NoMemory};

/// Appends a space and the field.
pub(crate) fn push_field(text: &mut Bytes, field: &[u8]) -> Result<(), NoMemory>
    ensures { OnOk result (text.new ≡ text.old ++ 32 ∷ field.now) }
{
    text.push(b' ')?;
    text.append(field)
}

/// Appends a space and the value's spelling.
pub(crate) fn push_value(text: &mut Bytes, value: &Value) -> Result<(), NoMemory>
    ensures { OnOk result (text.new ≡ text.old ++ 32 ∷ value_spelling value.now) }
{
    text.push(b' ')?;
    value.write(text)
}

/// Appends a space and the number in decimal.
pub(crate) fn push_count(text: &mut Bytes, count: usize) -> Result<(), NoMemory>
    ensures { OnOk result (text.new ≡ text.old ++ 32 ∷ decimal count) }
{
    push_value(text, &Value::Number(count as u64))
}

/// The name of the parameter with this index. Past the last one there is no name.
pub(crate) fn param_name(x: &Expanded, param: u32) -> &[u8]
    ensures { result.now ≡ param_name x.now param }
{
    param_name_at(x, param as usize)
}

/// The name of the parameter at this index. Past the last one there is no name.
pub(crate) fn param_name_at(x: &Expanded, index: usize) -> &[u8]
    ensures { result.now ≡ param_name x.now index }
{
    match x.params.as_slice().get(index) {
        Some(info) => info.name.as_slice(),
        None => b"",
    }
}

/// The name of the message with this index. Past the last one there is no name.
pub(crate) fn message_name(x: &Expanded, message: u32) -> &[u8]
    ensures { result.now ≡ (message_of x.now message).name }
{
    match x.messages.as_slice().get(message as usize) {
        Some(schema) => schema.name.as_slice(),
        None => b"",
    }
}
