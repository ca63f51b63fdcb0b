ghost use Rattle.std.specs.Prelude.{◌≡◌, ◌↔◌, ◌<◌, length, IfErr, IfOk, IfSome, IsNone, IsOk};
ghost use Rattle.std.specs.Prelude.{IsTrue, MatchBool};
ghost use Rattle.bspl_types.specs.History.{IsRun};
ghost use Rattle.enactment_model.specs.FirstLoose.{IsFirstLoose, IsLoose, IsStillEnabled};
ghost use Rattle.enactment_model.specs.FirstUnbound.{BindsPublic, IsFirstUnbound};
ghost use Rattle.enactment_model.specs.Liveness.{IsEmitted, Quiet};
ghost use Rattle.enactment_model.specs.inner.Rest.{EmitsOf, IsAtRest};
ghost use Rattle.run_index.specs.inner.Enactment.{HasEventsUnder};
ghost use Rattle.run_index.specs.inner.Waiting.{HasAllReceived, HasUnreceived, IsExhausted};

use super::index::RunIndex;
use bspl_types::{Event, Expanded, Key};
use enactment_model::Loose;
use list_base::NoMemory;
use role_knowledge::enabled;
use std::alloc::Global;

/// Checks that the run is quiet at the key: what is emitted under it is received, and no other
/// message can be emitted under it. The answer names the first message for which this fails.
pub fn quiet(
    alloc: Global,
    x: &Expanded,
    index: &RunIndex,
    key: &Key,
) -> Result<Result<(), Loose>, NoMemory>
    requires fits { IsRun x.now index.now }
    requires key { length key.now ≡ length x.now.keys }
    ensures exact { IfOk result (λ answer. IsOk answer ↔ Quiet x.now index.now key.now) }
    ensures loose { IfOk result (λ answer. IfErr answer (IsFirstLoose x.now index.now key.now)) }
{
    let events = index.enactment(alloc, key)?;
    Ok(first_loose(x, index, events.as_slice(), key))
}

/// The first loose message, given the events under the key.
fn first_loose(x: &Expanded, index: &RunIndex, events: &[Event], key: &Key) -> Result<(), Loose>
    requires fits { IsRun x.now index.now }
    requires part { HasEventsUnder index.now key.now events.now }
    ensures exact { IsOk result ↔ Quiet x.now index.now key.now }
    ensures loose { IfErr result (IsFirstLoose x.now index.now key.now) }
{
    for message in 0..x.messages.len() as u32 {
        if is_loose(x, index, events, key, message) {
            return Err(Loose { message });
        }
    }
    Ok(())
}

/// Whether an instance of the message is on its way under the key, or the message is not emitted
/// under it and can be.
fn is_loose(x: &Expanded, index: &RunIndex, events: &[Event], key: &Key, message: u32) -> bool
    requires fits { IsRun x.now index.now }
    requires part { HasEventsUnder index.now key.now events.now }
    requires known { message < length x.now.messages }
    ensures { MatchBool result (IsLoose x.now index.now key.now message)
        (IsAtRest x.now index.now key.now message) }
{
    if is_unreceived(index, events, key, message) {
        return true;
    }
    is_still_enabled(x, events, key, message)
}

/// Whether the message is not emitted under the key, and can be.
fn is_still_enabled(x: &Expanded, events: &[Event], key: &Key, message: u32) -> bool
    requires fits { IsRun x.now events.now }
    requires known { message < length x.now.messages }
    ensures { MatchBool result (IsStillEnabled x.now events.now key.now message)
        (IsExhausted x.now events.now key.now message) }
{
    !is_emitted_under(events, key, message) && enabled(x, events, message, key).is_ok()
}

/// Whether an instance of the message is emitted under the key and never received.
fn is_unreceived(index: &RunIndex, events: &[Event], key: &Key, message: u32) -> bool
    ensures { MatchBool result (HasUnreceived index.now key.now message events.now)
        (HasAllReceived index.now key.now message events.now) }
{
    for event in events {
        if let Event::Emit(instance) = event {
            let is_wanted = instance.message == message && instance.key.same(key);
            if is_wanted && !index.is_received(instance) {
                return true;
            }
        }
    }
    false
}

/// Whether some instance of the message is emitted under the key.
fn is_emitted_under(events: &[Event], key: &Key, message: u32) -> bool
    ensures { IsTrue result ↔ IsEmitted events.now key.now message }
{
    events.iter().any(|event| emits(event, key, message))
}

/// Whether the event emits an instance of the message under the key.
fn emits(event: &Event, key: &Key, message: u32) -> bool
    ensures { IsTrue result ↔ EmitsOf key.now message event.now }
{
    match event {
        Event::Emit(instance) => instance.message == message && instance.key.same(key),
        Event::Receive(_) => false,
    }
}

/// The first public parameter adorned `in` or `out` of which no role knows a value under the key,
/// by its index in the protocol's parameters.
pub fn unbound(
    alloc: Global,
    x: &Expanded,
    index: &RunIndex,
    key: &Key,
) -> Result<Option<u32>, NoMemory>
    requires fits { IsRun x.now index.now }
    requires key { length key.now ≡ length x.now.keys }
    ensures none { IfOk result (λ found. IsNone found ↔ BindsPublic x.now index.now key.now) }
    ensures first { IfOk result (λ found. IfSome found (IsFirstUnbound x.now index.now key.now)) }
{
    let events = index.enactment(alloc, key)?;
    Ok(enactment_model::unbound(x, events.as_slice(), key))
}
