ghost use Rattle.std.specs.Prelude.{◌≡◌, ◌<◌, List, length, slice_get, Some};
ghost use Rattle.bspl_types.specs.declared.envelope.Envelope.{Envelope};
ghost use Rattle.local_store.specs.Consistent.{IsConsistent};
ghost use Rattle.reorder_net.specs.Pass.{BoxId};
ghost use Rattle.adapter.specs.Kept.{IsKept};
ghost use Rattle.adapter.specs.State.{IsStateKept};
ghost use Rattle.adapter.specs.StateSteps.{TakesOne};
ghost use Rattle.adapter.specs.Steps.{IsSpent, IsTaking, after_pick};
ghost use Rattle.adapter.specs.inner.Received.{IsAwaited, Receives, TakesAt};

use super::desk::Desk;
use super::role_state::RoleState;
use agent_scripts::Job;
use bspl_types::{Stamped, equal_values_are_one};
use local_store::{Receipt, Store};
use rand_pcg::Pcg32;
use reorder_net::{Inbox, pick};
use stamped_history::played_grows;

/// Takes one of the envelopes that are held, as the generator picks it, and hands its message to
/// the store. A receipt, or one that is repeated, spends a copy of the envelope. A message that
/// differs from what the role knows stays in the inbox. This takes no memory.
pub fn desk_take(desk: &mut Desk, job: &Job, rng: &mut Pcg32) -> Option<Receipt>
    requires kept { IsKept job.now desk.old.store.role desk.old }
    ensures kept { IsKept job.now desk.old.store.role desk.new }
    ensures taken { IsTaking rng.old desk.old result desk.new }
    ensures word { rng.new ≡ after_pick rng.old desk.old.inbox }
{
    let held = desk.inbox.len();
    if held == 0 {
        return None;
    }
    take_at(desk, job, pick(rng, held))
}

/// The state's desk takes as `desk_take` does. It waits for nobody and takes no memory.
pub fn step_take(state: &mut RoleState, job: &Job, rng: &mut Pcg32) -> Option<Receipt>
    requires kept { (boxes : List BoxId) ×
        IsStateKept job.now state.old.desk.store.role boxes state.old }
    ensures kept { (boxes : List BoxId) →
        IsStateKept job.now state.old.desk.store.role boxes state.old →
        IsStateKept job.now state.old.desk.store.role boxes state.new }
    ensures taken { TakesOne rng.old state.old result rng.new state.new }
{
    desk_take(&mut state.desk, job, rng)
}

/// Takes the envelope at the index, unless the clock or its message's stamp is at its last value.
/// It is looked up once: the store receives the message where it stands.
fn take_at(desk: &mut Desk, job: &Job, index: usize) -> Option<Receipt>
    requires kept { IsKept job.now desk.old.store.role desk.old }
    requires index { index < length desk.old.inbox.envelopes }
    ensures kept { IsKept job.now desk.old.store.role desk.new }
    ensures taken { TakesAt index desk.old result desk.new }
{
    // laws: a played event leaves the events played, and equal keys are one key
    played_grows();
    equal_values_are_one();
    let envelope = desk.inbox.at(index);
    let receipt = receive(&mut desk.store, &envelope.message)?;
    spend(&mut desk.inbox, index, &receipt);
    Some(receipt)
}

/// The store receives the message, unless its clock or the message's stamp is at its last value.
fn receive(store: &mut Store, m: &Stamped) -> Option<Receipt>
    requires { IsAwaited store.old m.now }
    ensures received { Receives store.old m.now result store.new }
    ensures consistent { IsConsistent store.new }
{
    // law: each store is consistent
    store.is_consistent();
    if store.clock() == u64::MAX || m.stamp == u64::MAX {
        return None;
    }
    let receipt = store.receive(m);
    store.is_consistent();
    Some(receipt)
}

/// Spends a copy of the envelope at the index, unless it differs.
fn spend(inbox: &mut Inbox, index: usize, receipt: &Receipt)
    requires { index < length inbox.old.envelopes }
    ensures { (e : Envelope) → slice_get inbox.old.envelopes index ≡ Some e →
        IsSpent receipt.now inbox.old index e inbox.new }
{
    match receipt {
        Receipt::Fresh | Receipt::Repeat => inbox.spend(index),
        Receipt::Differs { .. } => {}
    }
}
