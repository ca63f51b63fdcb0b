ghost use Rattle.std.specs.Prelude.{◌∷◌};
ghost use Rattle.bspl_types.specs.declared.expanded.Expanded.{Expanded};
ghost use Rattle.agent_scripts.specs.Table.{setting_word};
ghost use Rattle.script_text.specs.inner.LineReading.{ReadsFields};
ghost use Rattle.text_lines.specs.Fields.{fields_of};

use super::line_error::LineError;
use super::numbers::last_number;
use super::settings::allows_number;
use agent_scripts::{Setting, Statement};

/// The statement of the line of a setting, of which the rest follows its word.
pub(crate) fn setting_statement(setting: Setting, rest: &[u8]) -> Result<Statement, LineError>
    ensures { (x : Expanded) → ReadsFields x (setting_word setting ∷ fields_of rest.now) result }
{
    let Some(number) = last_number(rest) else {
        return Err(LineError::Form);
    };
    if !allows_number(setting, number) {
        return Err(LineError::Form);
    }
    Ok(Statement::Set(setting, number))
}
