ghost use Rattle.std.specs.Prelude.{◌≡◌, ◌↔◌, ◌<◌, IfErr, IsOk, length, MatchBool};
ghost use Rattle.bspl_types.specs.History.{IsRun};
ghost use Rattle.enactment_model.specs.FirstLoose.{IsFirstLoose, IsLoose, IsUnreceived};
ghost use Rattle.enactment_model.specs.Liveness.{Quiet};
ghost use Rattle.enactment_model.specs.inner.Rest.{AreReceived, IsAtRest};

use super::occurrence::{is_emitted_under, is_received};
use bspl_types::{Event, Expanded, Key};
use role_knowledge::enabled;

/// A message that keeps an enactment from being quiet, by its index in the protocol's messages.
#[derive(Clone, Copy, Debug)]
pub struct Loose {
    pub message: u32,
}

/// Checks that the run is quiet at the key: what is emitted under it is received, and no other
/// message can be emitted under it. The answer names the first message for which this fails.
///
/// It takes no memory.
pub fn quiet(x: &Expanded, run: &[Event], key: &Key) -> Result<(), Loose>
    requires fits { IsRun x.now run.now }
    requires key { length key.now ≡ length x.now.keys }
    ensures exact { IsOk result ↔ Quiet x.now run.now key.now }
    ensures loose { IfErr result (IsFirstLoose x.now run.now key.now) }
{
    for message in 0..x.messages.len() as u32 {
        if is_loose(x, run, key, message) {
            return Err(Loose { message });
        }
    }
    Ok(())
}

/// Whether an instance of the message is on its way under the key, or the message is not emitted
/// under it and can be.
fn is_loose(x: &Expanded, run: &[Event], key: &Key, message: u32) -> bool
    requires fits { IsRun x.now run.now }
    requires known { message < length x.now.messages }
    ensures { MatchBool result (IsLoose x.now run.now key.now message)
        (IsAtRest x.now run.now key.now message) }
{
    if is_unreceived(run, key, message) {
        return true;
    }
    !is_emitted_under(run, key, message) && enabled(x, run, message, key).is_ok()
}

/// Whether an instance of the message is emitted under the key and never received.
fn is_unreceived(run: &[Event], key: &Key, message: u32) -> bool
    ensures { MatchBool result (IsUnreceived run.now key.now message)
        (AreReceived run.now key.now message) }
{
    for event in run {
        if let Event::Emit(instance) = event {
            let is_wanted = instance.message == message && instance.key.same(key);
            if is_wanted && !is_received(run, instance) {
                return true;
            }
        }
    }
    false
}
