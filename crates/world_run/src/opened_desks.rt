ghost use Rattle.std.specs.Prelude.{◌≡◌, ◌<◌, ◌≤◌, ◌+◌, [], length, IfOk, OnOk};
ghost use Rattle.local_store.specs.State.{new_store};
ghost use Rattle.world_run.specs.inner.Opened.{AreOpened, envelopes_to, events_of_role, incoming};
ghost use Rattle.world_run.specs.inner.Opened.{IsOpened, opened_store, own};

use super::world::DeskList;
use adapter::Desk;
use agent_scripts::{Job, scripts_fit};
use bspl_types::Message;
use list_base::{NoMemory, Seq};
use local_store::Store;
use reorder_net::Inbox;
use std::alloc::Global;

/// Desks for all roles of the job, without events, with all room that a run takes.
pub fn open_desks(alloc: Global, job: &Job) -> Result<DeskList, NoMemory>
    ensures { IfOk result (AreOpened job.now) }
{
    let roles = job.admitted().expanded().roles.len();
    let mut desks = Seq::new(alloc);
    for role in 0..roles {
        let desk = open_desk(alloc, job, role as u32)?;
        desks.push(desk)?;
    }
    Ok(desks)
}

/// A desk for the role.
fn open_desk(alloc: Global, job: &Job, role: u32) -> Result<Desk, NoMemory>
    requires { role < length job.now.protocol.roles }
    ensures { IfOk result (IsOpened job.now role) }
{
    let inbox = open_inbox(alloc, job, role)?;
    let store = open_store(alloc, job, role)?;
    // law: each store is consistent
    store.is_consistent();
    Ok(Desk::of(store, inbox))
}

/// A store for the role, which holds all workload keys.
fn open_store(alloc: Global, job: &Job, role: u32) -> Result<Store, NoMemory>
    requires { role < length job.now.protocol.roles }
    ensures { IfOk result (λ s. s ≡ opened_store job.now role) }
{
    let mut store = Store::new(alloc, job.admitted(), role)?;
    fill(&mut store, job, role)?;
    Ok(store)
}

/// Makes all workload keys held, and room for the events of the run.
fn fill(store: &mut Store, job: &Job, role: u32) -> Result<(), NoMemory>
    requires { store.old ≡ new_store job.now.protocol role }
    ensures { OnOk result (store.new ≡ opened_store job.now role) }
{
    hold_keys(store, job)?;
    store.reserve(event_room(job, role))
}

/// An inbox for the role.
fn open_inbox(alloc: Global, job: &Job, role: u32) -> Result<Inbox, NoMemory>
    ensures empty { IfOk result (λ b. b.envelopes ≡ []) }
    ensures room { IfOk result (λ b. envelopes_to job.now role ≤ b.spare) }
{
    let messages = job.admitted().expanded().messages.as_slice();
    let mut inbox = Inbox::new(alloc);
    inbox.reserve(job.script().count() as usize * count_incoming(messages, role))?;
    Ok(inbox)
}

/// How many events the role's store has room for: one more than the role can have.
fn event_room(job: &Job, role: u32) -> u32
    ensures count { result ≡ events_of_role job.now role + 1 }
    ensures few { result ≤ 640001 }
{
    let messages = job.admitted().expanded().messages.as_slice();
    job.script().count() as u32 * count_own(messages, role) as u32 + 1
}

/// Makes all workload keys held.
fn hold_keys(store: &mut Store, job: &Job) -> Result<(), NoMemory>
    requires { store.old ≡ new_store job.now.protocol store.old.role }
    ensures { OnOk result (store.new ≡ record store.old { keys = job.now.script.keys }) }
{
    // law: the workload keys have a value for each key parameter
    scripts_fit();
    let script = job.script();
    for index in 0..script.count() {
        store.add_key(&script.key(index + 1))?;
    }
    Ok(())
}

/// How many of the messages the role sends or receives.
fn count_own(messages: &[Message], role: u32) -> usize
    ensures { result ≡ length (own messages.now role) }
{
    messages
        .iter()
        .filter(|m| m.sender == role || m.receiver == role)
        .count()
}

/// How many of the messages go to the role.
fn count_incoming(messages: &[Message], role: u32) -> usize
    ensures { result ≡ length (incoming messages.now role) }
{
    messages.iter().filter(|m| m.receiver == role).count()
}
