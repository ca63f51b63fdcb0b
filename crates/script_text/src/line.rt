ghost use Rattle.bspl_types.specs.Admission.{IsAdmitted};
ghost use Rattle.script_text.specs.inner.LineReading.{ReadsFields};
ghost use Rattle.text_lines.specs.Fields.{fields_of};

use super::decline_line::decline_statement;
use super::key_line::key_statement;
use super::line_error::LineError;
use super::order_line::order_statement;
use super::plan_line::setting_statement;
use super::settings::setting_named;
use super::value_line::value_statement;
use agent_scripts::Statement;
use bspl_types::Expanded;
use std::alloc::Global;
use text_lines::first_field;

/// What the line says of the protocol.
pub(crate) fn statement_of(alloc: Global, x: &Expanded, line: &[u8]) -> Result<Statement, LineError>
    requires { IsAdmitted x.now }
    ensures { ReadsFields x.now (fields_of line.now) result }
{
    let Some((word, rest)) = first_field(line) else {
        return Err(LineError::Form);
    };
    if let Some(setting) = setting_named(word) {
        return setting_statement(setting, rest);
    }
    if word == b"key".as_slice() {
        return key_statement(x, rest);
    }
    if word == b"order".as_slice() {
        return order_statement(alloc, x, rest);
    }
    if word == b"decline".as_slice() {
        return decline_statement(x, rest);
    }
    if word == b"value".as_slice() {
        return value_statement(x, rest);
    }
    Err(LineError::Form)
}
