ghost use Rattle.std.specs.Prelude.{◌≡◌, ◌↔◌, IfOk, IsTrue};
ghost use Rattle.std.specs.List.{All};
ghost use Rattle.wire_form.specs.Texts.{IsStringItem, text_in, texts_in, texts_of};
ghost use Rattle.wire_form.specs.inner.Asked.{fields_of};
ghost use Rattle.wire_form.specs.inner.Found.{fields_in};

use super::asked::Field;
use list_base::NoMemory;
use serde_json::{Map, Value};
use std::alloc::Global;

/// The text of a string, or none of another value.
pub(crate) fn text_in(value: &Value) -> &str
    ensures { result.now ≡ text_in value.now }
{
    value.as_str().unwrap_or("")
}

/// Whether each of the values is a string.
pub fn are_texts(values: &[Value]) -> bool
    ensures { IsTrue result ↔ All IsStringItem values.now }
{
    values.iter().all(|value| value.is_string())
}

/// Whether each member is a string.
pub(crate) fn has_texts(members: &Map<String, Value>) -> bool
    ensures { IsTrue result ↔ All (λ e. IsStringItem e.1) members.now.entries }
{
    for (name, value) in members.iter() {
        if !value.is_string() {
            return false;
        }
    }
    true
}

/// The texts of the values.
pub fn texts_of(alloc: Global, values: &[Value]) -> Result<Vec<&str>, NoMemory>
    ensures { IfOk result (λ texts. texts_of texts.items ≡ texts_in values.now) }
{
    let mut texts = Vec::new(alloc);
    for value in values {
        texts.push(text_in(value))?;
    }
    Ok(texts)
}

/// The members as fields.
pub(crate) fn fields_of(
    alloc: Global,
    members: &Map<String, Value>,
) -> Result<Vec<Field<'_>>, NoMemory>
    ensures { IfOk result (λ fields. fields_of fields.items ≡ fields_in members.now.entries) }
{
    let mut fields = Vec::new(alloc);
    for (name, value) in members.iter() {
        let field = Field {
            name: name.as_str(),
            text: text_in(value),
        };
        fields.push(field)?;
    }
    Ok(fields)
}
