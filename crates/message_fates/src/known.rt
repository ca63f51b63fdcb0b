ghost use Rattle.std.specs.Prelude.{◌≡◌, length};
ghost use Rattle.bspl_types.specs.declared.expanded.Expanded.{Expanded as SpecExpanded};
ghost use Rattle.enactment_model.specs.Legal.{IsLegalRun};
ghost use Rattle.message_fates.specs.inner.Known.{AreKnown};

use super::fate::Fate;
use super::goals::Goals;
use super::laws::enactable_is_reached;
use super::param_sets::bit;
use super::played_run::played_run;
use super::reach::{is_closed, is_reached, reach};
use bspl_types::{Admitted, Event, Expanded};
use list_base::NoMemory;
use std::alloc::Global;

/// Finds the fates of messages that are not reached, and of those that a play sends. What was in
/// `known` is overwritten.
pub(crate) fn find_known(
    alloc: Global,
    protocol: &Admitted,
    known: &mut [Option<Fate>],
) -> Result<(), NoMemory>
    ensures known { AreKnown protocol.now known.new }
    ensures as_many { length known.new ≡ length known.old }
{
    known.fill(None);
    mark_unreached(protocol.expanded(), known);
    play_to_each(alloc, protocol, known)
}

/// The messages that are not reached are dead.
fn mark_unreached(x: &Expanded, known: &mut [Option<Fate>])
    requires { AreKnown x.now known.old }
    ensures known { AreKnown x.now known.new }
    ensures as_many { length known.new ≡ length known.old }
{
    // law: what a legal run emits is reached
    enactable_is_reached();
    let reach = reach(x);
    if !is_closed(x, &reach) {
        return;
    }
    'marked: for message in 0..known.len() {
        if !is_reached(&reach, message) {
            known[message] = Some(Fate::Dead);
        }
    }
}

/// Plays to each message whose fate is open. The last one comes first: a run that sends it is
/// likely to send many others.
fn play_to_each(
    alloc: Global,
    protocol: &Admitted,
    known: &mut [Option<Fate>],
) -> Result<(), NoMemory>
    requires { AreKnown protocol.now known.old }
    ensures known { AreKnown protocol.now known.new }
    ensures as_many { length known.new ≡ length known.old }
{
    let mut target = known.len();
    'from_the_last: while target > 0 {
        target -= 1;
        if known[target].is_none() {
            let goals = Goals::new(protocol.expanded(), target, open_messages(known));
            if let Some(run) = played_run(alloc, protocol, &goals)? {
                mark_sent(run.as_slice(), known);
            }
        }
    }
    Ok(())
}

/// The messages that have no fate yet, a bit for each.
fn open_messages(known: &[Option<Fate>]) -> u64 {
    let mut open = 0;
    for (message, fate) in known.iter().enumerate() {
        if fate.is_none() {
            open |= bit(message);
        }
    }
    open
}

/// What the run emits is sent.
fn mark_sent(run: &[Event], known: &mut [Option<Fate>])
    ensures known { (x : SpecExpanded) → IsLegalRun x run.now → AreKnown x known.old →
        AreKnown x known.new }
    ensures as_many { length known.new ≡ length known.old }
{
    'marked: for event in run {
        if let Event::Emit(instance) = event {
            let message = instance.message as usize;
            if message < known.len() {
                known[message] = Some(Fate::Sent);
            }
        }
    }
}
