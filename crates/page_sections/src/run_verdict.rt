ghost use Rattle.std.specs.Prelude.{◌≡◌, IfOk};
ghost use Rattle.bspl_types.specs.History.{IsRun};
ghost use Rattle.page_sections.specs.RunVerdict.{IsRunVerdict, finding_of};

use bspl_types::{Admitted, Event};
use enactment_model::{BadEvent, Conflict};
use list_base::NoMemory;
use run_chart::Finding;
use run_index::{RunIndex, legal, producers};
use std::alloc::Global;

/// What is found of a run.
#[derive(Clone, Copy, Debug)]
pub enum RunVerdict {
    /// It is not legal, and this is the first event that may not follow those before it.
    Illegal(BadEvent),
    /// It is legal, and this is its least conflict if it has one.
    Legal(Option<Conflict>),
}

/// What is found of the run.
pub(crate) fn verdict_of(alloc: Global, a: &Admitted, run: &[Event]) -> Result<RunVerdict, NoMemory>
    requires { IsRun a.now run.now }
    ensures { IfOk result (IsRunVerdict a.now run.now) }
{
    let index = RunIndex::of(alloc, run)?;
    verdict_along(alloc, a, &index)
}

/// What is found of the run along its index.
fn verdict_along(alloc: Global, a: &Admitted, index: &RunIndex<'_>) -> Result<RunVerdict, NoMemory>
    requires { IsRun a.now index.now }
    ensures { IfOk result (IsRunVerdict a.now index.now) }
{
    let answer = legal(alloc, a.expanded(), index)?;
    match answer {
        Err(bad) => Ok(RunVerdict::Illegal(bad)),
        Ok(()) => {
            let found = producers(alloc, a.expanded(), index)?;
            Ok(RunVerdict::Legal(found))
        }
    }
}

/// What the chart of a legal run marks.
pub(crate) fn finding_of(found: Option<Conflict>) -> Finding
    ensures { result ≡ finding_of found }
{
    match found {
        None => Finding::Plain,
        Some(found) => Finding::Clash {
            param: found.param,
            first: found.first,
            second: found.second,
        },
    }
}
