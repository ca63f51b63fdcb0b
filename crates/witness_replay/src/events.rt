ghost use Rattle.std.specs.Prelude.{◌≡◌, ◌<◌, length, IfOk, MatchOption};
ghost use Rattle.bspl_types.specs.History.{IsRun};
ghost use Rattle.first_occurrences.specs.Occurrence.{kind_of};
ghost use Rattle.witness_replay.specs.Witness.{IsWitnessEvent};
ghost use Rattle.witness_replay.specs.inner.Steps.{HasEmission, IsEmissionOf, MayHappen};

use super::instances::instance_after;
use bspl_types::{Event, Expanded, Instance};
use list_base::NoMemory;
use std::alloc::Global;

/// The event of the kind after these events.
pub(crate) fn event_after(
    alloc: Global,
    x: &Expanded,
    before: &[Event],
    kind: u32,
) -> Result<Event, NoMemory>
    requires some_key { 0 < length x.now.keys }
    requires run { IsRun x.now before.now }
    requires may { MayHappen x.now before.now kind }
    ensures of_kind { IfOk result (λ event. kind_of event ≡ kind) }
    ensures witness { IfOk result (IsWitnessEvent x.now before.now) }
{
    let m = (kind - 1) / 2;
    if kind % 2 == 1 {
        Ok(Event::Emit(instance_after(alloc, x, before, m)?))
    } else {
        Ok(Event::Receive(first_emission(before, m).unwrap()))
    }
}

/// The first instance of the message that is emitted.
fn first_emission(run: &[Event], m: u32) -> Option<Instance>
    ensures { MatchOption result (¬ HasEmission run.now m) (IsEmissionOf run.now m) }
{
    for event in run {
        if let Event::Emit(instance) = event {
            if instance.message == m {
                return Some(*instance);
            }
        }
    }
    None
}
