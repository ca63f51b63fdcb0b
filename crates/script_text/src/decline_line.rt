ghost use Rattle.std.specs.Prelude.{◌≡◌, ◌≢◌, ◌∷◌, ℕ, Option, codes, MatchOption};
ghost use Rattle.agent_scripts.specs.Table.{IsEvery, every_fields};
ghost use Rattle.script_text.specs.inner.LineReading.{ReadsFields};
ghost use Rattle.text_lines.specs.Fields.{fields_of};

use super::line_error::LineError;
use super::names::message_of;
use super::numbers::last_number;
use agent_scripts::Statement;
use bspl_types::Expanded;
use text_lines::first_field;

/// The statement of a line `decline MESSAGE` or `decline MESSAGE every N`, of which the rest
/// follows the word.
pub(crate) fn decline_statement(x: &Expanded, rest: &[u8]) -> Result<Statement, LineError>
    ensures { ReadsFields x.now (codes "decline" ∷ fields_of rest.now) result }
{
    let Some((name, after)) = first_field(rest) else {
        return Err(LineError::Form);
    };
    let Some(every) = every_of(after) else {
        return Err(LineError::Form);
    };
    match message_of(x, name) {
        Some(message) => Ok(Statement::Decline(message, every)),
        None => Err(LineError::Unknown),
    }
}

/// At the multiples of which number a message is declined, or always, by the rest of its line.
fn every_of(rest: &[u8]) -> Option<Option<u64>>
    ensures { MatchOption result
        ((every : Option ℕ) → IsEvery every → fields_of rest.now ≢ every_fields every)
        (λ every. IsEvery every × (fields_of rest.now ≡ every_fields every)) }
{
    let Some((word, after)) = first_field(rest) else {
        return Some(None);
    };
    if word != b"every".as_slice() {
        return None;
    }
    let number = last_number(after)?;
    if number == 0 {
        return None;
    }
    Some(Some(number))
}
