ghost use Rattle.std.specs.Prelude.{◌≡◌, ◌∷◌, [], ◌≤◌, List, length};
ghost use Rattle.bspl_types.specs.declared.event.Event.{Event};
ghost use Rattle.local_store.specs.Outline.{outline_of};
ghost use Rattle.local_store.specs.State.{acts_of};
ghost use Rattle.world_run.specs.World.{AreDesksOf, HasHistories};
ghost use Rattle.report.specs.WorldCounts.{AreMessageCounts};
ghost use Rattle.report.specs.inner.Counts.{GrowBy, HaveRoom};

use super::count::Count;
use bspl_types::{Expanded, MESSAGE_LIMIT};
use local_store::{Kind, Store};
use world_run::World;

/// How often each message was sent and received over all stores, by the messages' indices.
pub fn message_counts(x: &Expanded, world: &World) -> [Count; MESSAGE_LIMIT]
    requires { AreDesksOf x.now world.now.desks }
    ensures { (run : List Event) → HasHistories x.now world.now.desks run →
        AreMessageCounts run result }
{
    let none = Count {
        sent: 0,
        received: 0,
    };
    let mut counts = [none; MESSAGE_LIMIT];
    for role in 0..x.roles.len() as u32 {
        add_store(&mut counts, world.state(role).store());
    }
    counts
}

/// Counts the events of the store too. The counts are low enough that they still fit.
fn add_store(counts: &mut [Count], store: &Store)
    requires { HaveRoom 4294967295 counts.old }
    ensures grow { GrowBy (acts_of store.now) counts.old counts.new }
    ensures few { length store.now.entries ≤ 4294967295 }
{
    for i in 0..store.len() {
        let (kind, message) = store.outline(i);
        add_event(counts, kind, message);
    }
}

/// Counts the event with that outline too, if there is a count of its message.
fn add_event(counts: &mut [Count], kind: Kind, message: u32)
    requires { HaveRoom 1 counts.old }
    ensures { (event : Event) → outline_of event ≡ (kind, message) →
        GrowBy (event ∷ []) counts.old counts.new }
{
    let m = message as usize;
    if m >= counts.len() {
        return;
    }
    match kind {
        Kind::Emitted => counts[m].sent += 1,
        Kind::Received => counts[m].received += 1,
    }
}
