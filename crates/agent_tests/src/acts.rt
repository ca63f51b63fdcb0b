ghost use Rattle.std.specs.Prelude.{◌≡◌, ◌↔◌, IsTrue, IfOk, IfSome, length};
ghost use Rattle.bspl_types.specs.History.{instance_of, IsRun};
ghost use Rattle.bspl_types.specs.Instance.{Fits};

use bspl_types::{Event, Expanded, Instance, Key, NoMemory, Run, Seq, Value, Values};
use std::alloc::Global;
use std::test::Fail;

/// An event: its message and the numbers of its values, of which the first are its key's.
#[derive(Clone, Copy)]
pub(crate) enum Act<'a> {
    Emit(u32, &'a [u64]),
    Receive(u32, &'a [u64]),
}

/// Acts on the protocol `PAIR`, under the keys 1, 2 and 2, 1.
pub(crate) const M_12: Act = Act::Emit(0, &[1, 2, 5]);

pub(crate) const M_12_AGAIN: Act = Act::Emit(0, &[1, 2, 8]);

pub(crate) const M_21: Act = Act::Emit(0, &[2, 1, 6]);

pub(crate) const M_21_GOT: Act = Act::Receive(0, &[2, 1, 6]);

pub(crate) const N_21: Act = Act::Emit(1, &[2, 1, 6, 7]);

/// Two keys with `m`, one of them with its answer too.
pub(crate) const AFTER_N: &[Act] = &[M_12, M_21, M_21_GOT, N_21];

/// The numbers as values, if there are at most five.
fn cells(numbers: &[u64]) -> Option<[Value; 5]> {
    if numbers.len() > 5 {
        return None;
    }
    let mut cells = [Value::Number(0); 5];
    for (index, number) in numbers.iter().enumerate() {
        cells[index] = Value::Number(*number);
    }
    Some(cells)
}

/// The key of these numbers, if there are as many as the protocol has keys.
pub(crate) fn key_of(x: &Expanded, numbers: &[u64]) -> Option<Key>
    ensures { IfSome result (λ key. length key ≡ length x.now.keys) }
{
    let cells = cells(numbers)?;
    if numbers.is_empty() || numbers.len() > 4 || numbers.len() != x.keys.len() {
        return None;
    }
    Some(Key::of(&cells[..numbers.len()]))
}

/// The instance of these numbers, of which as many are its key's as is said.
fn instance(keys: usize, message: u32, numbers: &[u64]) -> Option<Instance> {
    let cells = cells(numbers)?;
    if numbers.len() > 5 || keys == 0 || keys > 4 || keys > numbers.len() {
        return None;
    }
    Some(Instance {
        message,
        key: Key::of(&cells[..keys]),
        values: Values::of(&cells[..numbers.len()]),
    })
}

/// The event of the act.
fn event(keys: usize, act: Act) -> Option<Event> {
    match act {
        Act::Emit(message, numbers) => Some(Event::Emit(instance(keys, message, numbers)?)),
        Act::Receive(message, numbers) => Some(Event::Receive(instance(keys, message, numbers)?)),
    }
}

/// The events of the acts, up to the first that is none.
fn events(alloc: Global, keys: usize, acts: &[Act]) -> Result<Run, NoMemory> {
    let mut run = Seq::new(alloc);
    for act in acts {
        let Some(event) = event(keys, *act) else {
            return Ok(run);
        };
        run.push(event)?;
    }
    Ok(run)
}

/// Whether each event fits the protocol.
fn are_fit(x: &Expanded, events: &[Event]) -> bool
    ensures { IsTrue result ↔ IsRun x.now events.now }
{
    events.iter().all(|event| is_fit(x, event))
}

/// Whether the event's instance fits the protocol.
fn is_fit(x: &Expanded, event: &Event) -> bool
    ensures { IsTrue result ↔ Fits x.now (instance_of event.now) }
{
    match event {
        Event::Emit(instance) | Event::Receive(instance) => instance.fits(x),
    }
}

/// The run of the acts, which fit the protocol.
pub(crate) fn run_of(alloc: Global, x: &Expanded, acts: &[Act]) -> Result<Run, Fail>
    ensures { IfOk result (IsRun x.now) }
{
    let run = events(alloc, x.keys.len(), acts)?;
    if run.len() != acts.len() || !are_fit(x, run.as_slice()) {
        return Err("an act does not fit the protocol".into());
    }
    Ok(run)
}
