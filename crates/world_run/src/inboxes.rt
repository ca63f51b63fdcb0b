ghost use Rattle.std.specs.Prelude.{◌≡◌, ◌<◌, ◌≤◌, [], length, slice_get, Some, OnOk};
ghost use Rattle.stamped_history.specs.declared.entry.Entry.{Entry};
ghost use Rattle.stamped_history.specs.Explained.{AreExplained, history_at};
ghost use Rattle.world_run.specs.Renewal.{AreCleared, AreRenewed, Reposts, RepostsAll};
ghost use Rattle.world_run.specs.World.{AreKept, histories_of};
ghost use Rattle.world_run.specs.inner.Undelivered.{ArePosted, ArriveUpTo, EntryArrives};
ghost use Rattle.world_run.specs.inner.InProgress.{AreSound, AreWhole, Extend};

use super::emissions::{is_delivered, undelivered_envelope};
use super::laws::kept_desks_merge;
use super::world::DeskList;
use adapter::{Desk, deliver, is_orderly};
use agent_scripts::Job;
use list_base::NoMemory;
use reorder_net::Inbox;
use std::alloc::Global;

/// Makes each inbox anew: it holds an envelope for each emission that is not lost and has no
/// receipt, in order of the senders and of their entries, and nothing else.
pub fn renew_inboxes(alloc: Global, job: &Job, desks: &mut DeskList) -> Result<(), NoMemory>
    requires kept { AreKept job.now desks.old }
    requires explained { AreExplained job.now.protocol (histories_of desks.old) }
    ensures extend { Extend job.now desks.old desks.new }
    ensures same { histories_of desks.new ≡ histories_of desks.old }
    ensures whole { OnOk result (AreWhole job.now desks.new) }
    ensures renewed { OnOk result (AreRenewed job.now desks.old desks.new) }
{
    // law: kept desks whose receipts are explained have a legal run
    kept_desks_merge();
    // law: a job's script is one for its protocol
    is_orderly(job);
    clear_inboxes(alloc, desks);
    for role in 0..desks.len() {
        post_all(desks, job, role)?;
    }
    Ok(())
}

/// Empties all inboxes.
fn clear_inboxes(alloc: Global, desks: &mut DeskList)
    ensures { AreCleared desks.old desks.new }
{
    for role in 0..desks.len() {
        clear_inbox(alloc, desks.at_mut(role));
    }
}

/// Empties the inbox, which keeps its room.
fn clear_inbox(alloc: Global, desk: &mut Desk)
    ensures store { desk.new.store ≡ desk.old.store }
    ensures empty { desk.new.inbox.envelopes ≡ [] }
    ensures room { desk.old.inbox.spare ≤ desk.new.inbox.spare }
{
    let mut inbox = desk.swap_inbox(Inbox::new(alloc));
    'copies: while inbox.len() > 0 {
        let last = inbox.len() - 1;
        prove!(inbox.at(last).copies > 0);
        inbox.spend(last);
    }
    desk.swap_inbox(inbox);
}

/// Posts all that is undelivered of the role's events.
fn post_all(desks: &mut DeskList, job: &Job, role: usize) -> Result<(), NoMemory>
    requires sound { AreSound job.now desks.old }
    requires role { role < length desks.old }
    ensures posted { ArePosted job.now desks.old desks.new }
    ensures arrive { OnOk result (ArriveUpTo job.now desks.new role
        (length (history_at (histories_of desks.old) role))) }
    ensures steps { OnOk result (RepostsAll job.now role desks.old desks.new) }
{
    for index in 0..desks.at(role).store().len() {
        post(desks, job, role, index)?;
    }
    Ok(())
}

/// Posts what is undelivered of the role's event at the index.
fn post(desks: &mut DeskList, job: &Job, role: usize, index: u32) -> Result<(), NoMemory>
    requires sound { AreSound job.now desks.old }
    requires role { role < length desks.old }
    requires index { index < length (history_at (histories_of desks.old) role) }
    ensures posted { ArePosted job.now desks.old desks.new }
    ensures arrive { OnOk result ((entry : Entry) →
        slice_get (history_at (histories_of desks.old) role) index ≡ Some entry →
        EntryArrives job.now desks.new entry) }
    ensures step { OnOk result (Reposts job.now role index desks.old desks.new) }
{
    if is_delivered(desks, job, role, index) {
        return Ok(());
    }
    let Some(envelope) = undelivered_envelope(desks, job, role, index) else {
        return Ok(());
    };
    deliver(desks.at_mut(envelope.to as usize), job, envelope)?;
    Ok(())
}
