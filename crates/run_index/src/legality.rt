ghost use Rattle.std.specs.Prelude.{◌↔◌, IfErr, IfOk, IsOk};
ghost use Rattle.bspl_types.specs.History.{IsRun};
ghost use Rattle.enactment_model.specs.BadEvent.{IsFirstBadEvent};
ghost use Rattle.enactment_model.specs.Legal.{IsLegal};

use super::demand::Demand;
use super::failures::first_failure;
use super::index::RunIndex;
use bspl_types::Expanded;
use enactment_model::{BadEvent, legal_by_positions, may_follow};
use list_base::NoMemory;
use std::alloc::Global;

/// Checks that each event may follow those before it: what is emitted is enabled in its sender's
/// history, and what is received was emitted. The answer names the first event that may not.
pub fn legal(
    alloc: Global,
    x: &Expanded,
    index: &RunIndex,
) -> Result<Result<(), BadEvent>, NoMemory>
    requires fits { IsRun x.now index.now }
    ensures exact { IfOk result (λ answer. IsOk answer ↔ IsLegal x.now index.now) }
    ensures bad { IfOk result (λ answer. IfErr answer (IsFirstBadEvent x.now index.now)) }
{
    // law: a run is legal exactly if the event at each position may follow those before it
    legal_by_positions();
    let run = index.events();
    let position = first_failure(alloc, x, index, Demand::MayFollow)?;
    if position == run.len() {
        return Ok(Ok(()));
    }
    match may_follow(x, &run[..position], &run[position]) {
        Ok(()) => Ok(Ok(())),
        Err(why) => Ok(Err(BadEvent {
            place: position + 1,
            why,
        })),
    }
}
