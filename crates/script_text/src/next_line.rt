ghost use Rattle.bspl_types.specs.Admission.{IsAdmitted};
ghost use Rattle.script_text.specs.inner.TextReading.{ReadsLine, ReadsNext};

use super::line::statement_of;
use super::line_error::LineError;
use super::lines::is_passed_over;
use super::statements::StatementList;
use agent_scripts::{ScriptRefusal, Stated};
use bspl_types::Expanded;
use list_base::NoMemory;
use std::alloc::Global;

/// How a line was read. Both have the statements.
#[derive(Drop)]
pub(crate) enum Progress {
    /// The line is passed over, or has its statement among them.
    More(StatementList),
    /// The line is refused.
    Refused(StatementList, ScriptRefusal),
}

/// Reads the line of that number after the statements.
pub(crate) fn read_line(
    alloc: Global,
    x: &Expanded,
    statements: StatementList,
    number: u64,
    line: &[u8],
) -> Result<Progress, NoMemory>
    requires { IsAdmitted x.now }
    ensures { ReadsLine x.now statements (number, line.now) result }
{
    if is_passed_over(line) {
        return Ok(Progress::More(statements));
    }
    match stated_at(alloc, x, &statements, number, line) {
        Ok(stated) => match statements.with(stated) {
            Ok(more) => Ok(Progress::More(more)),
            Err(error) => Err(error),
        },
        Err(ScriptRefusal::NoMemory) => Err(NoMemory),
        Err(refusal) => Ok(Progress::Refused(statements, refusal)),
    }
}

/// What the line of that number says after the statements.
fn stated_at(
    alloc: Global,
    x: &Expanded,
    statements: &StatementList,
    number: u64,
    line: &[u8],
) -> Result<Stated, ScriptRefusal>
    requires { IsAdmitted x.now }
    ensures { ReadsNext x.now statements.now (number, line.now) result }
{
    match statement_of(alloc, x, line) {
        Ok(statement) => {
            if !statements.allows(&statement) {
                return Err(ScriptRefusal::Form { line: number });
            }
            Ok(Stated {
                line: number,
                statement,
            })
        }
        Err(LineError::Form) => Err(ScriptRefusal::Form { line: number }),
        Err(LineError::Unknown) => Err(ScriptRefusal::Unknown { line: number }),
        Err(LineError::NoMemory) => Err(ScriptRefusal::NoMemory),
    }
}
