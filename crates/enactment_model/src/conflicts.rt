ghost use Rattle.std.specs.Prelude.{◌↔◌, ◌<◌, IfSome, IsNone, IsTrue, length, MatchOption};
ghost use Rattle.std.specs.Prelude.{ℕ};
ghost use Rattle.bspl_types.specs.History.{instance_of, IsRun};
ghost use Rattle.bspl_types.specs.Instance.{Fits};
ghost use Rattle.enactment_model.specs.LeastConflict.{IsLeastConflict};
ghost use Rattle.enactment_model.specs.Safety.{HasNoConflict};
ghost use Rattle.enactment_model.specs.Rivals.{HasNoRival, IsFirstProducer, IsFirstRival};
ghost use Rattle.enactment_model.specs.Rivals.{HasNoProducer, IsLeastRival, IsProducer};

use super::producing_messages::produces;
use bspl_types::{Event, Expanded, Key};

/// Two emissions under one key that produce one parameter. Positions are counted from 1; the
/// parameter is an index in the protocol's parameters.
#[derive(Clone, Copy, Debug)]
pub struct Conflict {
    pub first: usize,
    pub second: usize,
    pub param: u32,
}

/// The run's conflict with the earliest second producer, of these the one with the least
/// parameter, and of these the one with the earliest first producer.
///
/// It takes no memory.
pub fn producers(x: &Expanded, run: &[Event]) -> Option<Conflict>
    requires { IsRun x.now run.now }
    ensures none { IsNone result ↔ HasNoConflict x.now run.now }
    ensures least { IfSome result (IsLeastConflict x.now run.now) }
{
    for second in 0..run.len() {
        if let Some((param, first)) = least_rival(x, run, second) {
            return Some(Conflict {
                first: first + 1,
                second: second + 1,
                param,
            });
        }
    }
    None
}

/// The least parameter over which an earlier emission is in conflict with the event at the
/// position, and the first such emission. Positions are counted from 0.
///
/// It takes no memory.
pub fn least_rival(x: &Expanded, run: &[Event], second: usize) -> Option<(u32, usize)>
    requires run { IsRun x.now run.now }
    requires within { second < length run.now }
    ensures { MatchOption result ((p : ℕ) → HasNoRival x.now run.now second p)
        (IsLeastRival x.now run.now second) }
{
    for param in 0..x.params.len() as u32 {
        if let Some(first) = first_rival(x, run, second, param) {
            return Some((param, first));
        }
    }
    None
}

/// The first emission that is in conflict over the parameter with the event at the position.
fn first_rival(x: &Expanded, run: &[Event], second: usize, param: u32) -> Option<usize>
    requires run { IsRun x.now run.now }
    requires within { second < length run.now }
    ensures { MatchOption result (HasNoRival x.now run.now second param)
        (IsFirstRival x.now run.now second param) }
{
    let Event::Emit(instance) = &run[second] else {
        return None;
    };
    if !produces(x.messages.at(instance.message as usize), param) {
        return None;
    }
    first_producer(x, &run[..second], &instance.key, param)
}

/// The first emission under the key that produces the parameter.
fn first_producer(x: &Expanded, run: &[Event], key: &Key, param: u32) -> Option<usize>
    requires { IsRun x.now run.now }
    ensures { MatchOption result (HasNoProducer x.now run.now key.now param)
        (IsFirstProducer x.now run.now key.now param) }
{
    for (index, event) in run.iter().enumerate() {
        if is_producer(x, event, key, param) {
            return Some(index);
        }
    }
    None
}

/// Whether the event is an emission under the key that produces the parameter.
fn is_producer(x: &Expanded, event: &Event, key: &Key, param: u32) -> bool
    requires { Fits x.now (instance_of event.now) }
    ensures { IsTrue result ↔ IsProducer x.now key.now param event.now }
{
    match event {
        Event::Emit(instance) => {
            instance.key.same(key) && produces(x.messages.at(instance.message as usize), param)
        }
        Event::Receive(_) => false,
    }
}
