ghost use Rattle.std.specs.Prelude.{◌≢◌, ◌++◌, List, IfOk, IfErr, Ok, Err};
ghost use Rattle.bspl_types.specs.declared.event.Event.{Event};
ghost use Rattle.bspl_types.specs.Admission.{IsAdmitted};
ghost use Rattle.run_text.specs.declared.refusal.RunRefusal.{RunRefusal};
ghost use Rattle.run_text.specs.RunText.{IsRunText, head_line};
ghost use Rattle.run_text.specs.Refusal.{IsRefusedRun, AnswersRun};

use super::event::event_of;
use super::refusal::RunRefusal;
use bspl_types::{Admitted, Event, Expanded, Run, spells_once};
use list_base::Seq;
use std::alloc::Global;
use text_lines::split_once;

/// The run whose text this is.
pub fn read_run(alloc: Global, a: &Admitted, text: &[u8]) -> Result<Run, RunRefusal>
    ensures ok { IfOk result (IsRunText a.now text.now) }
    ensures refused { IfErr result (IsRefusedRun a.now text.now) }

    // The text of a run is read, and each refusal is given where it is due.
    ensures reads { (run : List Event) → IsRunText a.now text.now run → AnswersRun result (Ok run) }
    ensures refuses { (refusal : RunRefusal) → refusal ≢ RunRefusal.NoMemory →
        IsRefusedRun a.now text.now refusal → AnswersRun result (Err refusal) }
{
    spells_once(); // law: a field spells one value at most
    run_of(alloc, a.expanded(), text)
}

/// The run whose text this is, by the one way from the text to it.
fn run_of(alloc: Global, x: &Expanded, text: &[u8]) -> Result<Run, RunRefusal>
    requires { IsAdmitted x.now }
    ensures ok { IfOk result (IsRunText x.now text.now) }
    ensures refused { IfErr result (IsRefusedRun x.now text.now) }
{
    let (line, rest) = split_once(text, b'\n');
    let Some(rest) = rest else {
        return Err(RunRefusal::Form { line: 1 });
    };
    if line != b"run 1".as_slice() {
        return Err(RunRefusal::Form { line: 1 });
    }
    run_after(alloc, x, rest)
}

/// The run of a text from its second line on.
fn run_after(alloc: Global, x: &Expanded, text: &[u8]) -> Result<Run, RunRefusal>
    requires { IsAdmitted x.now }
    ensures ok { IfOk result (IsRunText x.now (head_line ++ text.now)) }
    ensures refused { IfErr result (IsRefusedRun x.now (head_line ++ text.now)) }
{
    let mut run = Seq::new(alloc);
    let mut number = 2;
    let mut rest = text;
    loop {
        let (line, after) = split_once(rest, b'\n');
        let Some(after) = after else {
            return Err(RunRefusal::Form { line: number });
        };
        if line == b"end".as_slice() {
            if after.is_empty() {
                return Ok(run);
            }
            return Err(RunRefusal::Form { line: number + 1 });
        }
        let Some(event) = event_of(x, line) else {
            return Err(RunRefusal::Form { line: number });
        };
        run.push(event)?;
        number += 1;
        rest = after;
    }
}
