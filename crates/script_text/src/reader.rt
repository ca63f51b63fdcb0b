ghost use Rattle.std.specs.Prelude.{IfOk};
ghost use Rattle.bspl_types.specs.Admission.{IsAdmitted};
ghost use Rattle.script_text.specs.Reading.{IsScriptRead};

use super::lines::first_line;
use super::next_line::{Progress, read_line};
use super::statements::StatementList;
use agent_scripts::ScriptRefusal;
use bspl_types::Expanded;
use list_base::NoMemory;
use std::alloc::Global;

/// What was read of a text: its statements, and why the line after them is refused, if one is.
#[derive(Drop)]
pub(crate) struct Reading {
    pub(crate) statements: StatementList,
    pub(crate) refusal: Option<ScriptRefusal>,
}

/// Reads the lines of the text up to the first that is bad by its form, its names or those before
/// it.
pub(crate) fn read_lines(alloc: Global, x: &Expanded, text: &[u8]) -> Result<Reading, NoMemory>
    requires { IsAdmitted x.now }
    ensures { IfOk result (λ read. IsScriptRead x.now text.now read.statements read.refusal) }
{
    let mut statements = StatementList::new(alloc);
    let mut number = 1;
    let mut left = text;
    'lines: loop {
        let (line, after) = first_line(left);
        match read_line(alloc, x, statements, number, line)? {
            Progress::More(more) => statements = more,
            Progress::Refused(statements, refusal) => {
                return Ok(Reading {
                    statements,
                    refusal: Some(refusal),
                });
            }
        }
        let Some(after) = after else {
            return Ok(Reading {
                statements,
                refusal: None,
            });
        };
        number += 1;
        left = after;
    }
}
