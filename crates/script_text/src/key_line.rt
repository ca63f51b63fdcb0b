ghost use Rattle.std.specs.Prelude.{◌≡◌, ◌≢◌, ◌∷◌, ◌<◌, ◌≤◌, List, length, map, codes, MatchOption};
ghost use Rattle.std.specs.List.{All};
ghost use Rattle.bspl_types.specs.declared.value.Value.{Value};
ghost use Rattle.bspl_types.specs.Admission.{IsAdmitted};
ghost use Rattle.bspl_types.specs.Limits.{key_limit};
ghost use Rattle.bspl_types.specs.Value.{IsValue};
ghost use Rattle.bspl_types.specs.ValueSpelling.{value_spelling};
ghost use Rattle.script_text.specs.inner.LineReading.{ReadsFields};
ghost use Rattle.text_lines.specs.Fields.{fields_of};

use super::line_error::LineError;
use agent_scripts::Statement;
use bspl_types::{Expanded, KEY_LIMIT, Key, Value};
use text_lines::first_field;

/// The statement of a line `key V ..`, of which the rest follows the word.
pub(crate) fn key_statement(x: &Expanded, rest: &[u8]) -> Result<Statement, LineError>
    requires { IsAdmitted x.now }
    ensures { ReadsFields x.now (codes "key" ∷ fields_of rest.now) result }
{
    match key_of(x.keys.len(), rest) {
        Some(key) => Ok(Statement::Key(key)),
        None => Err(LineError::Form),
    }
}

/// The key of as many values, which are all that is left of a line.
fn key_of(width: usize, rest: &[u8]) -> Option<Key>
    requires some { 0 < width }
    requires few { width ≤ key_limit }
    ensures { MatchOption result
        ((values : List Value) → length values ≡ width → All IsValue values →
        fields_of rest.now ≢ map value_spelling values)
        (λ values. (length values ≡ width) × All IsValue values ×
        (fields_of rest.now ≡ map value_spelling values)) }
{
    let mut cells = [Value::Number(0); KEY_LIMIT];
    let mut left = rest;
    for index in 0..width {
        let (field, after) = first_field(left)?;
        cells[index] = Value::read(field)?;
        left = after;
    }
    if first_field(left).is_some() {
        return None;
    }
    Some(Key::of(&cells[..width]))
}
