ghost use Rattle.std.specs.Prelude.{◌≡◌, IfOk, IfSome, MatchOption};
ghost use Rattle.std.specs.List.{position};
ghost use Rattle.enactability.specs.Answer.{IsCutAfter};
ghost use Rattle.enactability.specs.inner.Emission.{HasEmission, IsCutOfOne, emits};

use bspl_types::{Event, Run};
use list_base::NoMemory;
use std::alloc::Global;
use witness_replay::first_events;

/// One of the runs, cut after its first emission of the message, if one has an emission of it.
pub(crate) fn known_cut(alloc: Global, runs: &[Run], message: u32) -> Result<Option<Run>, NoMemory>
    ensures { IfOk result (λ found. IfSome found (IsCutOfOne message runs.now)) }
{
    for run in runs {
        let found = cut_of(alloc, run.as_slice(), message)?;
        if found.is_some() {
            return Ok(found);
        }
    }
    Ok(None)
}

/// The run, cut after its first emission of the message, if it has one.
pub(crate) fn cut_of(alloc: Global, run: &[Event], message: u32) -> Result<Option<Run>, NoMemory>
    ensures { IfOk result (λ cut. MatchOption cut
        (¬ HasEmission run.now message) (IsCutAfter message run.now)) }
{
    match first_emission(run, message) {
        Some(index) => Ok(Some(first_events(alloc, run, index + 1)?)),
        None => Ok(None),
    }
}

/// The index of the first emission of the message.
fn first_emission(run: &[Event], message: u32) -> Option<usize>
    ensures { result ≡ position (emits message) run.now }
{
    run.iter().position(|event| is_emission(event, message))
}

/// Whether the event is an emission of the message.
fn is_emission(event: &Event, message: u32) -> bool
    ensures { result ≡ emits message event.now }
{
    match event {
        Event::Emit(instance) => instance.message == message,
        Event::Receive(_) => false,
    }
}
