ghost use Rattle.std.specs.Prelude.{◌≡◌, ◌++◌, OnOk};
ghost use Rattle.bspl_types.specs.History.{IsRun};
ghost use Rattle.html.specs.Fragment.{as_html};
ghost use Rattle.page_sections.specs.VerdictSections.{played_part};

use super::verdicts::push_evidence;
use super::wording::PLAYED_START;
use bspl_types::{Admitted, Event};
use html::{Fragment, push_fragments};
use list_base::{Bytes, NoMemory};
use run_chart::Finding;
use std::alloc::Global;

/// How many events the chart of a given run, or of a world, has at most.
pub(crate) const CHARTED: usize = 200;

/// Appends the run of a world as a chart and as a text, unless it is too long to be looked at.
pub fn push_played(
    alloc: Global,
    text: &mut Bytes,
    a: &Admitted,
    run: &[Event],
) -> Result<(), NoMemory>
    requires { IsRun a.now run.now }
    ensures { OnOk result (text.new ≡ text.old ++ as_html (played_part a.now run.now)) }
{
    if run.len() > CHARTED {
        return Ok(());
    }
    push_fragments(text, &[Fragment::Tag(PLAYED_START)])?;
    push_evidence(alloc, text, a, run, Finding::Plain)
}
