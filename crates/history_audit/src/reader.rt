ghost use Rattle.std.specs.Prelude.{◌++◌, IfErr, IfOk};
ghost use Rattle.bspl_types.specs.Admission.{IsAdmitted};
ghost use Rattle.history_audit.specs.Histories.{AreHistories};
ghost use Rattle.history_audit.specs.HistoryText.{head_line, IsHistoriesText};
ghost use Rattle.history_audit.specs.Refusal.{IsRefusedText};

use super::histories::Histories;
use super::refusal::HistoryRefusal;
use super::section_lines::take_line;
use super::sections::histories_of;
use bspl_types::{Admitted, Expanded};
use list_base::Seq;
use std::alloc::Global;
use text_lines::split_once;

/// The histories whose text this is.
pub fn read_histories(alloc: Global, a: &Admitted, text: &[u8]) -> Result<Histories, HistoryRefusal>
    ensures ok { IfOk result (IsHistoriesText a.now text.now) }
    ensures histories { IfOk result (AreHistories a.now) }
    ensures refused { IfErr result (IsRefusedText a.now text.now) }
{
    let (line, rest) = split_once(text, b'\n');
    let Some(rest) = rest else {
        return Err(HistoryRefusal::Form { line: 1 });
    };
    if line != b"histories 1".as_slice() {
        return Err(HistoryRefusal::Form { line: 1 });
    }
    read_sections(alloc, a.expanded(), rest)
}

/// The histories of a text from its second line on.
fn read_sections(alloc: Global, x: &Expanded, text: &[u8]) -> Result<Histories, HistoryRefusal>
    requires { IsAdmitted x.now }
    ensures ok { IfOk result (IsHistoriesText x.now (head_line ++ text.now)) }
    ensures histories { IfOk result (AreHistories x.now) }
    ensures refused { IfErr result (IsRefusedText x.now (head_line ++ text.now)) }
{
    let mut sections = Seq::new(alloc);
    let mut number = 2;
    let mut rest = text;
    'lines: loop {
        let (line, after) = split_once(rest, b'\n');
        let Some(after) = after else {
            return Err(HistoryRefusal::Form { line: number });
        };
        if line == b"end".as_slice() {
            if after.is_empty() {
                let histories = histories_of(alloc, x, sections)?;
                return Ok(histories);
            }
            return Err(HistoryRefusal::Form { line: number + 1 });
        }
        let taken = take_line(alloc, x, &mut sections, line)?;
        if !taken {
            return Err(HistoryRefusal::Form { line: number });
        }
        number += 1;
        rest = after;
    }
}
