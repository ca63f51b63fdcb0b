ghost use Rattle.std.specs.Prelude.{◌≡◌, ◌++◌, ◌∷◌, [], IfOk, IfSome, OnOk};
ghost use Rattle.bspl_types.specs.declared.event.Event.TheVariants.{Emit, Receive};
ghost use Rattle.bspl_types.specs.History.{IsRun};
ghost use Rattle.enactment_model.specs.Legal.{IsLegalRun};

use super::goals::Goals;
use super::play::play;
use bspl_types::{Admitted, CARRIED_LIMIT, Event, Expanded, Instance, Run, Value, Values};
use enactment_model::legal;
use list_base::{NoMemory, Seq};
use std::alloc::Global;
use witness_replay::key_of_ones;

/// The run of a play, if it sends an open message and is legal.
pub(crate) fn played_run(
    alloc: Global,
    protocol: &Admitted,
    goals: &Goals,
) -> Result<Option<Run>, NoMemory>
    ensures { IfOk result (λ played. IfSome played (IsLegalRun protocol.now)) }
{
    let x = protocol.expanded();
    let order = play(alloc, x, goals)?;
    let mut sent = order.as_slice().iter();
    if !sent.any(|message| goals.is_open(*message as usize)) {
        return Ok(None);
    }
    let run = run_of(alloc, protocol, order.as_slice())?;
    if legal(x, run.as_slice()).is_ok() {
        Ok(Some(run))
    } else {
        Ok(None)
    }
}

/// The run in which each of the messages that fits is emitted, and received at once. Each value is
/// 1.
fn run_of(alloc: Global, protocol: &Admitted, messages: &[u32]) -> Result<Run, NoMemory>
    ensures { IfOk result (IsRun protocol.now) }
{
    // what is known of an admitted protocol: there is a key
    protocol.is_admitted();
    let x = protocol.expanded();
    let key = key_of_ones(x);
    let mut run = Seq::with_room(alloc, 2 * messages.len())?;
    for message in messages {
        let instance = Instance {
            message: *message,
            key,
            values: ones(x, *message),
        };
        if instance.fits(x) {
            push_both(&mut run, &instance)?;
        }
    }
    Ok(run)
}

/// Appends the emission of the instance and its reception.
fn push_both(run: &mut Run, instance: &Instance) -> Result<(), NoMemory>
    ensures { OnOk result (run.new ≡
        run.old ++ Emit instance.now ∷ Receive instance.now ∷ []) }
{
    run.push(Event::Emit(*instance))?;
    run.push(Event::Receive(*instance))
}

/// The value 1 for each parameter that the message binds.
fn ones(x: &Expanded, message: u32) -> Values {
    let Some(message) = x.messages.as_slice().get(message as usize) else {
        return Values::new();
    };
    let bound = message
        .carried
        .as_slice()
        .iter()
        .filter(|c| c.adornment.has_value());
    Values::of(&[Value::Number(1); CARRIED_LIMIT][..bound.count().min(CARRIED_LIMIT)])
}
