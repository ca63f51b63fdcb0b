ghost use Rattle.std.specs.Prelude.{◌≡◌, ◌≢◌, ◌∷◌, codes, MatchOption};
ghost use Rattle.agent_scripts.specs.declared.statement.Rule.{Rule};
ghost use Rattle.agent_scripts.specs.Table.{IsRule, rule_fields};
ghost use Rattle.script_text.specs.inner.LineReading.{ReadsFields};
ghost use Rattle.text_lines.specs.Fields.{fields_of};

use super::line_error::LineError;
use super::names::{free_out, message_of};
use super::numbers::last_number;
use agent_scripts::{Rule, Statement};
use bspl_types::{Expanded, Value, spells_once};
use text_lines::first_field;

/// The statement of a line `value MESSAGE PARAM A B` or `value MESSAGE PARAM T`, of which the rest
/// follows the word.
pub(crate) fn value_statement(x: &Expanded, rest: &[u8]) -> Result<Statement, LineError>
    ensures { ReadsFields x.now (codes "value" ∷ fields_of rest.now) result }
{
    let Some((name, after)) = first_field(rest) else {
        return Err(LineError::Form);
    };
    let Some((param, spelled)) = first_field(after) else {
        return Err(LineError::Form);
    };
    let Some(rule) = rule_of(spelled) else {
        return Err(LineError::Form);
    };
    let Some(message) = message_of(x, name) else {
        return Err(LineError::Unknown);
    };
    match free_out(x, message, param) {
        Some(param) => Ok(Statement::Bind(message, param, rule)),
        None => Err(LineError::Unknown),
    }
}

/// The rule that is all that is left of a line: two numbers, or a text.
fn rule_of(spelled: &[u8]) -> Option<Rule>
    ensures { MatchOption result
        ((rule : Rule) → IsRule rule → fields_of spelled.now ≢ rule_fields rule)
        (λ rule. IsRule rule × (fields_of spelled.now ≡ rule_fields rule)) }
{
    spells_once(); // law: a field spells one value at most
    let (first, after) = first_field(spelled)?;
    match Value::read(first)? {
        Value::Number(factor) => {
            let offset = last_number(after)?;
            Some(Rule::Linear(factor, offset))
        }
        Value::Text(text) => match first_field(after) {
            None => Some(Rule::Fixed(text)),
            Some((_other, _others)) => None,
        },
    }
}
