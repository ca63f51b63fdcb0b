ghost use Rattle.std.specs.Prelude.{◌≡◌, ◌<◌, IfSome, length};
ghost use Rattle.std.specs.List.{list_any, position};
ghost use Rattle.run_chart.specs.Strokes.{is_emission_of, is_reception_of, same_instance};

use bspl_types::{Event, Instance};

/// The index of the first emission of the instance.
pub(crate) fn emission_index(run: &[Event], instance: &Instance) -> Option<usize>
    ensures first { result ≡ position (is_emission_of instance.now) run.now }
    ensures within { IfSome result (λ index. index < length run.now) }
{
    run.iter().position(|event| is_emission_of(instance, event))
}

/// Whether the run receives the instance.
pub(crate) fn is_received(run: &[Event], instance: &Instance) -> bool
    ensures { result ≡ list_any (is_reception_of instance.now) run.now }
{
    run.iter().any(|event| is_reception_of(instance, event))
}

/// Whether the event is the emission of the instance.
fn is_emission_of(instance: &Instance, event: &Event) -> bool
    ensures { result ≡ is_emission_of instance.now event.now }
{
    match event {
        Event::Emit(emitted) => same_instance(emitted, instance),
        Event::Receive(_) => false,
    }
}

/// Whether the event is the reception of the instance.
fn is_reception_of(instance: &Instance, event: &Event) -> bool
    ensures { result ≡ is_reception_of instance.now event.now }
{
    match event {
        Event::Emit(_) => false,
        Event::Receive(received) => same_instance(received, instance),
    }
}

/// Whether both are the same message with the same key and values.
fn same_instance(instance: &Instance, other: &Instance) -> bool
    ensures { result ≡ same_instance instance.now other.now }
{
    instance.message == other.message
        && instance.key.same(&other.key)
        && instance.values.same(&other.values)
}
