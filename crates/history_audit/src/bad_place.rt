ghost use Rattle.std.specs.Prelude.{◌≡◌, ◌↔◌, ◌<◌, IfOk, IsTrue, length, List, MatchOption};
ghost use Rattle.bspl_types.specs.declared.event.Event.{Event};
ghost use Rattle.bspl_types.specs.History.{instance_of, IsRun, role_of};
ghost use Rattle.bspl_types.specs.Instance.{Fits};
ghost use Rattle.history_audit.specs.BadPlace.{AllMayHappen, HasNoBadPlace, IsFirstBadPlace};
ghost use Rattle.history_audit.specs.BadPlace.{IsWhy, MayHappen};
ghost use Rattle.history_audit.specs.Histories.{AreHistories};
ghost use Rattle.history_audit.specs.inner.Places.{AreOwn, IsFirstBad, IsFirstBadOf};
ghost use Rattle.history_audit.specs.inner.Places.{IsFirstUnsent};
ghost use Rattle.history_audit.specs.inner.Waits.{AreWaits, HaveWaits, IsSent, IsWait};

use super::waits::Waits;
use bspl_types::{Event, Expanded, Run};
use enactment_model::{Why, may_follow};
use list_base::NoMemory;
use run_index::{RunIndex, first_disabled};
use std::alloc::Global;

/// A place of a role's history, from 1, that is bad.
#[derive(Clone, Copy, Debug)]
pub(crate) struct BadPlace {
    pub role: u32,
    pub place: usize,
    pub why: Why,
}

/// The first bad place of the first role that has one.
pub(crate) fn first_bad_place(
    alloc: Global,
    x: &Expanded,
    indices: &[RunIndex],
    histories: &[Run],
    waits: &[Waits],
) -> Result<Option<BadPlace>, NoMemory>
    requires histories { AreHistories x.now histories.now }
    requires indexed { indices.now ≡ histories.now }
    requires waits { HaveWaits x.now histories.now waits.now }
    ensures { IfOk result (λ found. MatchOption found (AllMayHappen x.now histories.now)
        (λ bad. IsFirstBadPlace x.now histories.now bad.role bad.place bad.why)) }
{
    for role in 0..x.roles.len() as u32 {
        let bad = bad_place_of(alloc, x, role, indices, histories, waits)?;
        if bad.is_some() {
            return Ok(bad);
        }
    }
    Ok(None)
}

/// The first bad place of the role's history.
fn bad_place_of(
    alloc: Global,
    x: &Expanded,
    role: u32,
    indices: &[RunIndex],
    histories: &[Run],
    waits: &[Waits],
) -> Result<Option<BadPlace>, NoMemory>
    requires histories { AreHistories x.now histories.now }
    requires indexed { indices.now ≡ histories.now }
    requires waits { HaveWaits x.now histories.now waits.now }
    requires known { role < length x.now.roles }
    ensures { IfOk result (λ found. MatchOption found (HasNoBadPlace x.now histories.now role)
        (IsFirstBadOf x.now histories.now role)) }
{
    let index = &indices[role as usize];
    let wait = waits[role as usize].as_slice();
    let position = first_bad(alloc, x, role, index, histories, wait)?;
    let history = index.events();
    if position == history.len() {
        return Ok(None);
    }
    Ok(Some(BadPlace {
        role,
        place: position + 1,
        why: reason(x, role, &history[..position], &history[position]),
    }))
}

/// The index of the first event of the role's history that may not happen, or its length.
fn first_bad(
    alloc: Global,
    x: &Expanded,
    role: u32,
    index: &RunIndex,
    histories: &[Run],
    waits: &[usize],
) -> Result<usize, NoMemory>
    requires count { length histories.now ≡ length x.now.roles }
    requires fit { IsRun x.now index.now }
    requires own { AreOwn x.now role index.now }
    requires waits { AreWaits x.now histories.now index.now waits.now }
    ensures { IfOk result (IsFirstBad x.now histories.now index.now) }
{
    let disabled = first_disabled(alloc, x, index)?;
    let unsent = first_unsent(x, histories, index.events(), waits);
    Ok(disabled.min(unsent))
}

/// The index of the first receipt of what its sender never emits, or the length of the history.
fn first_unsent(x: &Expanded, histories: &[Run], history: &[Event], waits: &[usize]) -> usize
    requires count { length histories.now ≡ length x.now.roles }
    requires fit { IsRun x.now history.now }
    requires waits { AreWaits x.now histories.now history.now waits.now }
    ensures { IsFirstUnsent x.now histories.now history.now result }
{
    for (position, event) in history.iter().enumerate() {
        if !is_sent(x, histories, event, waits[position]) {
            return position;
        }
    }
    history.len()
}

/// Whether the event is no receipt, or one of what its sender emits.
fn is_sent(x: &Expanded, histories: &[Run], event: &Event, wait: usize) -> bool
    requires count { length histories.now ≡ length x.now.roles }
    requires fits { Fits x.now (instance_of event.now) }
    requires wait { IsWait x.now histories.now event.now wait }
    ensures { IsTrue result ↔ IsSent x.now histories.now event.now }
{
    match event {
        Event::Emit(_) => true,
        Event::Receive(instance) => {
            let sender = x.messages.at(instance.message as usize).sender;
            wait < histories[sender as usize].len()
        }
    }
}

/// Why the role's event may not happen after the role's events before it.
fn reason(x: &Expanded, role: u32, before: &[Event], event: &Event) -> Why
    requires run { IsRun x.now before.now }
    requires fits { Fits x.now (instance_of event.now) }
    requires own { AreOwn x.now role before.now }
    requires own_event { role_of x.now event.now ≡ role }
    ensures { (histories : List (List Event)) → ¬ MayHappen x.now histories before.now event.now →
        IsWhy x.now before.now event.now result }
{
    match event {
        Event::Receive(_) => Why::Unsent,
        Event::Emit(_) => match may_follow(x, before, event) {
            Err(why) => why,
            Ok(()) => Why::Unsent,
        },
    }
}
