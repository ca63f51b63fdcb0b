ghost use Rattle.std.specs.Prelude.{◌≡◌, ◌<◌, length, slice_get, IsTrue, Some, MatchOption};
ghost use Rattle.stamped_history.specs.Explained.{history_at};
ghost use Rattle.stamped_history.specs.declared.entry.Entry.{Entry};
ghost use Rattle.world_run.specs.World.{histories_of};
ghost use Rattle.world_run.specs.inner.Undelivered.{CanBePosted, OwesNothing};
ghost use Rattle.world_run.specs.inner.InProgress.{AreSound};

use super::world::DeskList;
use adapter::is_orderly;
use agent_scripts::Job;
use bspl_types::{Envelope, Event, Stamped};
use local_store::Kind;
use reorder_net::copies;

/// The undelivered envelope of the role's event at the index: the event is an emission that the
/// plan does not lose and that its receiver has not received.
pub fn undelivered_envelope(
    desks: &DeskList,
    job: &Job,
    role: usize,
    index: u32,
) -> Option<Envelope>
    requires sound { AreSound job.now desks.now }
    requires role { role < length desks.now }
    requires index { index < length (history_at (histories_of desks.now) role) }
    ensures { (entry : Entry) →
        slice_get (history_at (histories_of desks.now) role) index ≡ Some entry →
        MatchOption result (OwesNothing job.now desks.now entry)
        (CanBePosted job.now desks.now entry) }
{
    // law: a job's keys are distinct
    is_orderly(job);
    let store = desks.at(role).store();
    let (event, stamp) = store.event(index);
    let Event::Emit(instance) = event else {
        return None;
    };
    let to = job
        .admitted()
        .expanded()
        .messages
        .at(instance.message as usize)
        .receiver;
    let Some(n) = job.script().number(&instance.key) else {
        return None;
    };
    let copies = copies(job.plan(), instance.message, n);
    let receiver = desks.at(to as usize).store();
    if copies == 0 {
        return None;
    }
    if receiver.received(instance.message, &instance.key) {
        return None;
    }
    let message = Stamped {
        instance,
        stamp,
        number: store.number(index),
    };
    Some(Envelope {
        to,
        from: store.role(),
        message,
        copies,
    })
}

/// Whether nothing is undelivered of the role's event at the index, since it is a receipt, or has
/// been received. Its values are not read.
pub fn is_delivered(desks: &DeskList, job: &Job, role: usize, index: u32) -> bool
    requires sound { AreSound job.now desks.now }
    requires role { role < length desks.now }
    requires index { index < length (history_at (histories_of desks.now) role) }
    ensures { IsTrue result → (entry : Entry) →
        slice_get (history_at (histories_of desks.now) role) index ≡ Some entry →
        OwesNothing job.now desks.now entry }
{
    let store = desks.at(role).store();
    let (kind, message) = store.outline(index);
    match kind {
        Kind::Received => true,
        Kind::Emitted => {
            let messages = &job.admitted().expanded().messages;
            let to = messages.at(message as usize).receiver;
            desks.at(to as usize).store().has_received(store, index)
        }
    }
}
