ghost use Rattle.std.specs.Prelude.{IfOk};
ghost use Rattle.bspl_types.specs.History.{IsRun};
ghost use Rattle.run_index.specs.FirstDisabled.{IsFirstDisabled};

use super::demand::Demand;
use super::failures::first_failure;
use super::index::RunIndex;
use bspl_types::Expanded;
use list_base::NoMemory;
use std::alloc::Global;

/// The position of the first emission that is not enabled in its sender's history, or the length
/// of the run.
pub fn first_disabled(alloc: Global, x: &Expanded, index: &RunIndex) -> Result<usize, NoMemory>
    requires fits { IsRun x.now index.now }
    ensures { IfOk result (IsFirstDisabled x.now index.now) }
{
    first_failure(alloc, x, index, Demand::Enabled)
}
