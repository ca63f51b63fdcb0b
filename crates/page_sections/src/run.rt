ghost use Rattle.std.specs.Prelude.{◌≡◌, ◌≤◌, ◌++◌, length, OnOk};
ghost use Rattle.bspl_types.specs.History.{IsRun};
ghost use Rattle.html.specs.Fragment.{as_html};
ghost use Rattle.page_sections.specs.RunSection.{AppendsRun, chart_part, illegal_section};
ghost use Rattle.page_sections.specs.RunSection.{legal_section};

use super::played::CHARTED;
use super::run_verdict::{RunVerdict, finding_of, verdict_of};
use super::run_words::{push_illegal_words, push_legal_words, push_report};
use super::wording::TOO_LONG;
use bspl_types::{Admitted, Event};
use enactment_model::{Conflict, Why};
use html::{Fragment, fill};
use list_base::{Bytes, NoMemory};
use run_chart::{Finding, push_chart};
use std::alloc::Global;

/// Appends the section of the run, and in it the lines of a report on it: a legal run as a whole,
/// and an illegal one up to the first event that may not follow those before it.
pub fn push_run(
    alloc: Global,
    text: &mut Bytes,
    a: &Admitted,
    run: &[Event],
    report: &[u8],
) -> Result<(), NoMemory>
    requires { IsRun a.now run.now }
    ensures { OnOk result (AppendsRun a.now run.now report.now text.old text.new) }
{
    match verdict_of(alloc, a, run)? {
        RunVerdict::Illegal(bad) => push_illegal(alloc, text, a, run, bad.place, bad.why, report),
        RunVerdict::Legal(found) => push_legal(alloc, text, a, run, found, report),
    }
}

/// Appends the section of an illegal run, whose chart ends with its first bad event.
fn push_illegal(
    alloc: Global,
    text: &mut Bytes,
    a: &Admitted,
    run: &[Event],
    place: usize,
    why: Why,
    report: &[u8],
) -> Result<(), NoMemory>
    requires fits { IsRun a.now run.now }
    requires within { place ≤ length run.now }
    ensures { OnOk result (text.new ≡ text.old ++ as_html
        (illegal_section a.now run.now (record { place = place; why = why }) report.now)) }
{
    let finding = Finding::Bad { event: place };
    push_illegal_words(alloc, text, a.expanded(), place, why)?;
    push_chart_part(alloc, text, a, &run[..place], finding)?;
    push_report(text, report)
}

/// Appends the section of a legal run with this conflict, or without one.
fn push_legal(
    alloc: Global,
    text: &mut Bytes,
    a: &Admitted,
    run: &[Event],
    found: Option<Conflict>,
    report: &[u8],
) -> Result<(), NoMemory>
    requires { IsRun a.now run.now }
    ensures { OnOk result (text.new ≡
        text.old ++ as_html (legal_section a.now run.now found report.now)) }
{
    push_legal_words(text, a.expanded(), found)?;
    push_chart_part(alloc, text, a, run, finding_of(found))?;
    push_report(text, report)
}

/// Appends the chart of the run, unless it is too long to be looked at.
fn push_chart_part(
    alloc: Global,
    text: &mut Bytes,
    a: &Admitted,
    run: &[Event],
    finding: Finding,
) -> Result<(), NoMemory>
    requires { IsRun a.now run.now }
    ensures { OnOk result (text.new ≡ text.old ++ as_html (chart_part a.now run.now finding)) }
{
    if run.len() > CHARTED {
        return fill(text, TOO_LONG, &[Fragment::Number(CHARTED as u64)]);
    }
    push_chart(alloc, text, a, run, finding)
}
