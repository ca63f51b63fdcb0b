ghost use Rattle.std.specs.Prelude.{◌≡◌, ◌++◌, IfOk, OnOk};
ghost use Rattle.bspl_types.specs.History.{IsRun};
ghost use Rattle.refutation_log.specs.LogText.{LogInRange};
ghost use Rattle.report.specs.VerdictText.{HasFittingRest, HasFittingRun, HaveFittingRuns};
ghost use Rattle.report.specs.VerdictText.{liveness_line, liveness_text, log_part, not_live_line};
ghost use Rattle.report.specs.VerdictText.{safety_line, safety_text, undecided_line, unsafe_line};
ghost use Rattle.report.specs.VerdictText.{verdict_text};
ghost use Rattle.run_text.specs.RunText.{run_text};
ghost use Rattle.verdict.specs.Numbers.{HasNumbersInRange};
ghost use Rattle.verdict.specs.Verdicts.{AreInRange, HasLivenessInRange};

use super::fields::{param_name, push_count, push_field};
use bspl_types::{Admitted, Event, Expanded};
use list_base::{Bytes, NoMemory};
use refutation_log::{Kind, Log, write_log};
use run_text::write_run;
use std::alloc::Global;
use verdict::{Liveness, Safety, Verdicts};

/// The text of the verdicts. A brief one has no log; a run that refutes is always there.
pub fn verdict_text(
    alloc: Global,
    a: &Admitted,
    v: &Verdicts,
    brief: bool,
) -> Result<Bytes, NoMemory>
    requires fits { HaveFittingRuns a.now v.now }
    requires numbers { AreInRange v.now }
    ensures { IfOk result (λ text. text ≡ verdict_text a.now v.now brief) }
{
    let mut text = Bytes::from_slice(alloc, b"protocol")?;
    push_field(&mut text, a.expanded().name.as_slice())?;
    text.push(b'\n')?;
    push_safety(alloc, &mut text, a, &v.safety, brief)?;
    push_liveness(alloc, &mut text, a, &v.liveness, brief)?;
    Ok(text)
}

/// Appends the answer on safety.
fn push_safety(
    alloc: Global,
    text: &mut Bytes,
    a: &Admitted,
    safety: &Safety,
    brief: bool,
) -> Result<(), NoMemory>
    requires fits { HasFittingRun a.now safety.now }
    requires numbers { HasNumbersInRange safety.now }
    ensures { OnOk result (text.new ≡ text.old ++ safety_text a.now brief safety.now) }
{
    push_safety_line(text, a.expanded(), safety)?;
    match safety {
        Safety::Safe(log) => push_log(alloc, text, Kind::Safety, log, brief),
        Safety::Unsafe { run, .. } => push_run(alloc, text, a, run.as_slice()),
        Safety::Undecided(log) => push_log(alloc, text, Kind::Safety, log, brief),
    }
}

/// Appends the answer on liveness.
fn push_liveness(
    alloc: Global,
    text: &mut Bytes,
    a: &Admitted,
    liveness: &Liveness,
    brief: bool,
) -> Result<(), NoMemory>
    requires fits { HasFittingRest a.now liveness.now }
    requires numbers { HasLivenessInRange liveness.now }
    ensures { OnOk result (text.new ≡ text.old ++ liveness_text a.now brief liveness.now) }
{
    push_liveness_line(text, a.expanded(), liveness)?;
    match liveness {
        Liveness::Live(log) => push_log(alloc, text, Kind::Liveness, log, brief),
        Liveness::NotLive { run, .. } => push_run(alloc, text, a, run.as_slice()),
        Liveness::Undecided(log) => push_log(alloc, text, Kind::Liveness, log, brief),
    }
}

/// Appends the line of the answer on safety.
pub(crate) fn push_safety_line(
    text: &mut Bytes,
    x: &Expanded,
    safety: &Safety,
) -> Result<(), NoMemory>
    ensures { OnOk result (text.new ≡ text.old ++ safety_line x.now safety.now) }
{
    match safety {
        Safety::Safe(_) => text.append(b"safety safe\n"),
        Safety::Unsafe {
            param,
            first,
            second,
            ..
        } => { push_unsafe(text, x, *param, *first, *second) }
        Safety::Undecided(log) => push_undecided(text, b"safety", log),
    }
}

/// Appends the line of the answer on liveness.
pub(crate) fn push_liveness_line(
    text: &mut Bytes,
    x: &Expanded,
    liveness: &Liveness,
) -> Result<(), NoMemory>
    ensures { OnOk result (text.new ≡ text.old ++ liveness_line x.now liveness.now) }
{
    match liveness {
        Liveness::Live(_) => text.append(b"liveness live\n"),
        Liveness::NotLive { param, .. } => push_not_live(text, x, *param),
        Liveness::Undecided(log) => push_undecided(text, b"liveness", log),
    }
}

/// Appends the line of an unsafe protocol.
fn push_unsafe(
    text: &mut Bytes,
    x: &Expanded,
    param: u32,
    first: usize,
    second: usize,
) -> Result<(), NoMemory>
    ensures { OnOk result (text.new ≡ text.old ++ unsafe_line x.now param first second) }
{
    text.append(b"safety unsafe")?;
    push_field(text, param_name(x, param))?;
    push_count(text, first)?;
    push_count(text, second)?;
    text.push(b'\n')
}

/// Appends the line of a protocol that is not live.
fn push_not_live(text: &mut Bytes, x: &Expanded, param: u32) -> Result<(), NoMemory>
    ensures { OnOk result (text.new ≡ text.old ++ not_live_line x.now param) }
{
    text.append(b"liveness not-live")?;
    push_field(text, param_name(x, param))?;
    text.push(b'\n')
}

/// Appends the line of a search that came to its budget.
fn push_undecided(text: &mut Bytes, property: &[u8], log: &Log) -> Result<(), NoMemory>
    ensures { OnOk result (text.new ≡ text.old ++ undecided_line property.now log.now) }
{
    text.append(property)?;
    push_field(text, b"undecided")?;
    push_count(text, log.steps.len())?;
    text.push(b'\n')
}

/// Appends the text of the run.
fn push_run(alloc: Global, text: &mut Bytes, a: &Admitted, run: &[Event]) -> Result<(), NoMemory>
    requires { IsRun a.now run.now }
    ensures { OnOk result (text.new ≡ text.old ++ run_text a.now run.now) }
{
    let events = write_run(alloc, a, run)?;
    text.append(events.as_slice())
}

/// Appends the text of the log, unless the text is brief.
fn push_log(
    alloc: Global,
    text: &mut Bytes,
    kind: Kind,
    log: &Log,
    brief: bool,
) -> Result<(), NoMemory>
    requires { LogInRange log.now }
    ensures { OnOk result (text.new ≡ text.old ++ log_part kind brief log.now) }
{
    if brief {
        return Ok(());
    }
    let steps = write_log(alloc, kind, log)?;
    text.append(steps.as_slice())
}
