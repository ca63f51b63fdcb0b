ghost use Rattle.std.specs.Prelude.{◌≡◌, ◌++◌, length, OnOk};
ghost use Rattle.bspl_types.specs.History.{IsRun};
ghost use Rattle.html.specs.Fragment.{as_html};
ghost use Rattle.page_sections.specs.VerdictSections.{liveness_section, not_live_sentence};
ghost use Rattle.page_sections.specs.VerdictSections.{run_shown, safety_section};
ghost use Rattle.page_sections.specs.VerdictSections.{undecided_sentence, unsafe_sentence};
ghost use Rattle.report.specs.VerdictText.{HasFittingRest, HasFittingRun};

use super::wording::{
    LIVE_SAID, LIVENESS, NOT_LIVE_SAID, RUN_TEXT, SAFE_SAID, SAFETY, UNDECIDED_SAID, UNSAFE_SAID,
};
use bspl_types::{Admitted, Event, Expanded};
use html::{Fragment, fill, param_name, push_fragments};
use list_base::{Bytes, NoMemory};
use refutation_log::Log;
use run_chart::{Finding, push_chart};
use run_text::write_run;
use std::alloc::Global;
use verdict::{Liveness, Safety};

/// Appends what the verdict on safety says, and its run as a chart and as a text.
pub(crate) fn push_safety(
    alloc: Global,
    text: &mut Bytes,
    a: &Admitted,
    safety: &Safety,
) -> Result<(), NoMemory>
    requires { HasFittingRun a.now safety.now }
    ensures { OnOk result (text.new ≡ text.old ++ as_html (safety_section a.now safety.now)) }
{
    match safety {
        Safety::Safe(_) => push_fragments(text, &[Fragment::Tag(SAFE_SAID)]),
        Safety::Unsafe {
            run,
            param,
            first,
            second,
        } => {
            let finding = Finding::Clash {
                param: *param,
                first: *first,
                second: *second,
            };
            let x = a.expanded();
            let events = run.as_slice();
            push_unsafe(text, x, *param, *first, *second)?;
            push_evidence(alloc, text, a, events, finding)
        }
        Safety::Undecided(log) => push_undecided(text, SAFETY, log),
    }
}

/// Appends what the verdict on liveness says, and its run as a chart and as a text.
pub(crate) fn push_liveness(
    alloc: Global,
    text: &mut Bytes,
    a: &Admitted,
    liveness: &Liveness,
) -> Result<(), NoMemory>
    requires { HasFittingRest a.now liveness.now }
    ensures { OnOk result (text.new ≡ text.old ++ as_html (liveness_section a.now liveness.now)) }
{
    match liveness {
        Liveness::Live(_) => push_fragments(text, &[Fragment::Tag(LIVE_SAID)]),
        Liveness::NotLive { run, param } => {
            let finding = Finding::Open { param: *param };
            let x = a.expanded();
            let events = run.as_slice();
            push_not_live(text, x, *param)?;
            push_evidence(alloc, text, a, events, finding)
        }
        Liveness::Undecided(log) => push_undecided(text, LIVENESS, log),
    }
}

/// Appends the parameter that is produced twice, and the positions of both producers.
fn push_unsafe(
    text: &mut Bytes,
    x: &Expanded,
    param: u32,
    first: usize,
    second: usize,
) -> Result<(), NoMemory>
    ensures { OnOk result (text.new ≡
        text.old ++ as_html (unsafe_sentence x.now param first second)) }
{
    fill(
        text,
        UNSAFE_SAID,
        &[
            Fragment::Number(first as u64),
            Fragment::Number(second as u64),
            Fragment::Words(param_name(x, param)),
        ],
    )
}

/// Appends the parameter that stays open.
fn push_not_live(text: &mut Bytes, x: &Expanded, param: u32) -> Result<(), NoMemory>
    ensures { OnOk result (text.new ≡ text.old ++ as_html (not_live_sentence x.now param)) }
{
    fill(
        text,
        NOT_LIVE_SAID,
        &[Fragment::Words(param_name(x, param))],
    )
}

/// Appends the property whose search came to no answer, and how many conflicts it met.
fn push_undecided(text: &mut Bytes, property: &[u8], log: &Log) -> Result<(), NoMemory>
    ensures { OnOk result (text.new ≡
        text.old ++ as_html (undecided_sentence property.now (length log.now.steps))) }
{
    fill(
        text,
        UNDECIDED_SAID,
        &[
            Fragment::Tag(property),
            Fragment::Number(log.steps.len() as u64),
        ],
    )
}

/// Appends the run as a chart that marks the finding, and as a text.
pub(crate) fn push_evidence(
    alloc: Global,
    text: &mut Bytes,
    a: &Admitted,
    run: &[Event],
    finding: Finding,
) -> Result<(), NoMemory>
    requires { IsRun a.now run.now }
    ensures { OnOk result (text.new ≡ text.old ++ as_html (run_shown a.now run.now finding)) }
{
    let lines = write_run(alloc, a, run)?;
    push_chart(alloc, text, a, run, finding)?;
    fill(text, RUN_TEXT, &[Fragment::Words(lines.as_slice())])
}
