ghost use Rattle.std.specs.Prelude.{◌∷◌, codes};
ghost use Rattle.script_text.specs.inner.LineReading.{ReadsFields, ReadsOrder};
ghost use Rattle.text_lines.specs.Fields.{fields_of};

use super::line_error::LineError;
use super::names::{role_of, sent_message};
use agent_scripts::Statement;
use bspl_types::{Expanded, NumberList, Seq};
use std::alloc::Global;
use text_lines::first_field;

/// The statement of a line `order ROLE MESSAGE ..`, of which the rest follows the word.
pub(crate) fn order_statement(
    alloc: Global,
    x: &Expanded,
    rest: &[u8],
) -> Result<Statement, LineError>
    ensures { ReadsFields x.now (codes "order" ∷ fields_of rest.now) result }
{
    let Some((name, listed)) = first_field(rest) else {
        return Err(LineError::Form);
    };
    let Some((_first, _others)) = first_field(listed) else {
        return Err(LineError::Form);
    };
    let Some(role) = role_of(x, name) else {
        return Err(LineError::Unknown);
    };
    let messages = sent_messages(alloc, x, role, listed)?;
    Ok(Statement::Order(role, messages))
}

/// The messages of these names, if the role sends each.
fn sent_messages(
    alloc: Global,
    x: &Expanded,
    role: u32,
    listed: &[u8],
) -> Result<NumberList, LineError>
    ensures { ReadsOrder x.now role (fields_of listed.now) result }
{
    let mut messages = Seq::new(alloc);
    let mut left = listed;
    while let Some((name, after)) = first_field(left) {
        let Some(message) = sent_message(x, role, name) else {
            return Err(LineError::Unknown);
        };
        messages.push(message)?;
        left = after;
    }
    Ok(messages)
}
