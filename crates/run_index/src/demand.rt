ghost use Rattle.std.specs.Prelude.{◌≡◌, ◌↔◌, ◌<◌, length, IsTrue, List, MatchBool, slice_get};
ghost use Rattle.std.specs.Prelude.{Some, take};
ghost use Rattle.std.specs.List.{Any, Contains};
ghost use Rattle.bspl_types.specs.declared.event.Event.{Event};
ghost use Rattle.bspl_types.specs.declared.event.Event.TheVariants.{Emit};
ghost use Rattle.bspl_types.specs.History.{IsRun};
ghost use Rattle.bspl_types.specs.Instance.{Fits};
ghost use Rattle.run_index.specs.inner.Demands.{IsRivalOf, Meets};
ghost use Rattle.run_index.specs.inner.Facts.{AreFacts, AreFactsBefore};
ghost use Rattle.run_index.specs.inner.Knowing.{HasKnownRival, HasNoKnownRival, IsKnownRival};

use super::facts::Facts;
use super::index::RunIndex;
use super::permission::is_enabled;
use bspl_types::{Event, Expanded, Instance};
use enactment_model::shares_out;

/// What is asked of an event, given the events before it.
#[derive(Clone, Copy, Debug)]
pub(crate) enum Demand {
    /// It may follow them.
    MayFollow,
    /// None of them is in conflict with it.
    Unrivalled,
    /// If it is an emission, it is enabled.
    Enabled,
}

/// Whether the event at the position meets the demand in the run, as the facts before it tell.
pub(crate) fn meets(
    x: &Expanded,
    demand: Demand,
    index: &RunIndex,
    facts: &Facts,
    position: usize,
) -> bool
    requires run { IsRun x.now index.now }
    requires within { position < length index.now }
    requires facts { AreFactsBefore x.now index.now position facts.now }
    ensures { (event : Event) → slice_get index.now position ≡ Some event →
        (IsTrue result ↔ Meets x.now demand (take position index.now) event) }
{
    let run = index.events();
    match &run[position] {
        Event::Emit(instance) => emission_meets(x, demand, facts, instance),
        Event::Receive(instance) => match demand {
            Demand::MayFollow => is_emitted_before(index, instance, position),
            Demand::Unrivalled | Demand::Enabled => true,
        },
    }
}

/// Whether an emission of the instance comes before the position.
fn is_emitted_before(index: &RunIndex, instance: &Instance, position: usize) -> bool
    requires { position < length index.now }
    ensures { IsTrue result ↔ Contains (take position index.now) (Emit instance.now) }
{
    index.first_emission(instance) < position
}

/// Whether the emission of the instance meets the demand.
fn emission_meets(x: &Expanded, demand: Demand, facts: &Facts, instance: &Instance) -> bool
    requires { Fits x.now instance.now }
    ensures { (before : List Event) → IsRun x.now before →
        AreFacts x.now instance.now.key before facts.now →
        (IsTrue result ↔ Meets x.now demand before (Emit instance.now)) }
{
    match demand {
        Demand::MayFollow => is_enabled(x, facts, instance),
        Demand::Unrivalled => is_unrivalled(x, facts, instance),
        Demand::Enabled => is_enabled(x, facts, instance),
    }
}

/// Whether no emission before is in conflict with that of the instance.
fn is_unrivalled(x: &Expanded, facts: &Facts, instance: &Instance) -> bool
    requires { Fits x.now instance.now }
    ensures { (before : List Event) → IsRun x.now before →
        AreFacts x.now instance.now.key before facts.now →
        (IsTrue result ↔ ¬ Any (IsRivalOf x.now (Emit instance.now)) before) }
{
    !has_rival(x, facts, instance.message)
}

/// Whether a message is emitted that produces what this one produces.
fn has_rival(x: &Expanded, facts: &Facts, message: u32) -> bool
    requires { message < length x.now.messages }
    ensures { MatchBool result (HasKnownRival x.now facts.now message)
        (HasNoKnownRival x.now facts.now message) }
{
    for other in 0..x.messages.len() as u32 {
        if is_rival(x, facts, message, other) {
            return true;
        }
    }
    false
}

/// Whether the other message is such a one.
fn is_rival(x: &Expanded, facts: &Facts, message: u32, other: u32) -> bool
    requires known { message < length x.now.messages }
    requires other { other < length x.now.messages }
    ensures { IsTrue result ↔ IsKnownRival x.now facts.now message other }
{
    facts.is_emitted(other) && shares_out(x.message_at(other), x.message_at(message))
}
