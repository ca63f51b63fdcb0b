ghost use Rattle.std.specs.Prelude.{◌≡◌, ◌↔◌, IsTrue};
ghost use Rattle.std.specs.List.{Contains};
ghost use Rattle.bspl_types.specs.declared.event.Event.TheVariants.{Emit, Receive};
ghost use Rattle.enactment_model.specs.Liveness.{IsEmitted, IsReceived};
ghost use Rattle.enactment_model.specs.inner.Rest.{EmitsOf, ReceivesOf};

use bspl_types::{Event, Instance, Key};

/// Whether the instance is emitted in the run.
pub(crate) fn is_emitted(run: &[Event], instance: &Instance) -> bool
    ensures { IsTrue result ↔ Contains run.now (Emit instance.now) }
{
    run.iter().any(|event| is_emission(event, instance))
}

/// Whether the instance is received in the run.
pub(crate) fn is_received(run: &[Event], instance: &Instance) -> bool
    ensures { IsTrue result ↔ Contains run.now (Receive instance.now) }
{
    run.iter().any(|event| is_reception(event, instance))
}

/// Whether some instance of the message is emitted under the key.
pub fn is_emitted_under(run: &[Event], key: &Key, message: u32) -> bool
    ensures { IsTrue result ↔ IsEmitted run.now key.now message }
{
    run.iter().any(|event| emits(event, key, message))
}

/// Whether some instance of the message is received under the key.
pub fn is_received_under(run: &[Event], key: &Key, message: u32) -> bool
    ensures { IsTrue result ↔ IsReceived run.now key.now message }
{
    run.iter().any(|event| receives(event, key, message))
}

/// Whether the event emits an instance of the message under the key.
fn emits(event: &Event, key: &Key, message: u32) -> bool
    ensures { IsTrue result ↔ EmitsOf key.now message event.now }
{
    match event {
        Event::Emit(instance) => instance.message == message && instance.key.same(key),
        Event::Receive(_) => false,
    }
}

/// Whether the event receives an instance of the message under the key.
fn receives(event: &Event, key: &Key, message: u32) -> bool
    ensures { IsTrue result ↔ ReceivesOf key.now message event.now }
{
    match event {
        Event::Emit(_) => false,
        Event::Receive(instance) => instance.message == message && instance.key.same(key),
    }
}

/// Whether the event is the emission of the instance.
fn is_emission(event: &Event, instance: &Instance) -> bool
    ensures { IsTrue result ↔ (event.now ≡ Emit instance.now) }
{
    match event {
        Event::Emit(emitted) => emitted.same(instance),
        Event::Receive(_) => false,
    }
}

/// Whether the event is the reception of the instance.
fn is_reception(event: &Event, instance: &Instance) -> bool
    ensures { IsTrue result ↔ (event.now ≡ Receive instance.now) }
{
    match event {
        Event::Emit(_) => false,
        Event::Receive(received) => received.same(instance),
    }
}
