ghost use Rattle.std.specs.Prelude.{◌≡◌, IfOk, length};
ghost use Rattle.bspl_types.specs.History.{instance_of, IsRun};
ghost use Rattle.bspl_types.specs.Instance.{Fits};
ghost use Rattle.history_audit.specs.Histories.{AreHistories};
ghost use Rattle.history_audit.specs.inner.Waits.{AreWaits, HaveWaits, IsWait};

use bspl_types::{Event, Expanded, Run};
use list_base::{NoMemory, Seq};
use run_index::RunIndex;
use std::alloc::Global;

/// For each event of a history, the index of the emission that it waits for.
pub(crate) type Waits = Seq<usize>;

/// What the receipts of each history wait for.
pub(crate) fn all_waits(
    alloc: Global,
    x: &Expanded,
    indices: &[RunIndex],
    histories: &[Run],
) -> Result<Seq<Waits>, NoMemory>
    requires histories { AreHistories x.now histories.now }
    requires indexed { indices.now ≡ histories.now }
    ensures { IfOk result (HaveWaits x.now histories.now) }
{
    let mut waits = Seq::new(alloc);
    for history in histories {
        let own = waits_of(alloc, x, indices, history.as_slice())?;
        waits.push(own)?;
    }
    Ok(waits)
}

/// What the receipts of a history wait for.
fn waits_of(
    alloc: Global,
    x: &Expanded,
    indices: &[RunIndex],
    history: &[Event],
) -> Result<Waits, NoMemory>
    requires count { length indices.now ≡ length x.now.roles }
    requires fit { IsRun x.now history.now }
    ensures { IfOk result (AreWaits x.now indices.now history.now) }
{
    let mut waits = Seq::with_room(alloc, history.len())?;
    for event in history {
        waits.push(wait_of(x, indices, event))?;
    }
    Ok(waits)
}

/// The index of the emission that the event waits for, if it is a receipt.
fn wait_of(x: &Expanded, indices: &[RunIndex], event: &Event) -> usize
    requires count { length indices.now ≡ length x.now.roles }
    requires fits { Fits x.now (instance_of event.now) }
    ensures { IsWait x.now indices.now event.now result }
{
    match event {
        Event::Emit(_) => 0,
        Event::Receive(instance) => {
            let sender = x.messages.at(instance.message as usize).sender;
            indices[sender as usize].first_emission(instance)
        }
    }
}
