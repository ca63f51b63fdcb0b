ghost use Rattle.std.specs.Prelude.{◌↔◌, IfOk, IfSome, IsNone};
ghost use Rattle.bspl_types.specs.History.{IsRun};
ghost use Rattle.enactment_model.specs.LeastConflict.{IsLeastConflict};
ghost use Rattle.enactment_model.specs.Safety.{HasNoConflict};

use super::demand::Demand;
use super::failures::first_failure;
use super::index::RunIndex;
use bspl_types::Expanded;
use enactment_model::{Conflict, least_rival};
use list_base::NoMemory;
use std::alloc::Global;

/// The run's conflict with the earliest second producer, of these the one with the least
/// parameter, and of these the one with the earliest first producer.
pub fn producers(
    alloc: Global,
    x: &Expanded,
    index: &RunIndex,
) -> Result<Option<Conflict>, NoMemory>
    requires { IsRun x.now index.now }
    ensures none { IfOk result (λ found. IsNone found ↔ HasNoConflict x.now index.now) }
    ensures least { IfOk result (λ found. IfSome found (IsLeastConflict x.now index.now)) }
{
    let run = index.events();
    let second = first_failure(alloc, x, index, Demand::Unrivalled)?;
    if second == run.len() {
        return Ok(None);
    }
    match least_rival(x, run, second) {
        None => Ok(None),
        Some((param, first)) => Ok(Some(Conflict {
            first: first + 1,
            second: second + 1,
            param,
        })),
    }
}
