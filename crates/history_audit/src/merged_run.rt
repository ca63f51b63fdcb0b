ghost use Rattle.std.specs.Prelude.{◌≡◌, ◌<◌, IfErr, IfOk, length, List, MatchBool, MatchOption};
ghost use Rattle.std.specs.Prelude.{replicate, ℕ};
ghost use Rattle.bspl_types.specs.declared.event.Event.{Event};
ghost use Rattle.bspl_types.specs.Admission.{IsAdmitted};
ghost use Rattle.bspl_types.specs.History.{instance_of};
ghost use Rattle.bspl_types.specs.Instance.{Fits};
ghost use Rattle.history_audit.specs.Audit.{IsAuditFault};
ghost use Rattle.history_audit.specs.Histories.{AreHistories, Explains};
ghost use Rattle.history_audit.specs.inner.Merging.{AreWithin, IsHeldBack, IsReady, IsStuck};
ghost use Rattle.history_audit.specs.inner.Merging.{IsUnfinished, MayCome};
ghost use Rattle.history_audit.specs.inner.Waits.{HaveWaits, IsJudged, IsWait};

use super::audit_no::AuditNo;
use super::cycle::cycle_from;
use super::waits::Waits;
use bspl_types::{Event, Expanded, Run};
use enactment_model::legal_by_positions;
use list_base::{NoMemory, Seq};
use std::alloc::Global;

/// One run of all histories: again and again the next event of the first role whose next event may
/// come. If none may before the ends are reached, receipts wait for one another in a circle.
pub(crate) fn merge(
    alloc: Global,
    x: &Expanded,
    histories: &[Run],
    waits: &[Waits],
) -> Result<Run, AuditNo>
    requires admitted { IsAdmitted x.now }
    requires histories { AreHistories x.now histories.now }
    requires judged { IsJudged x.now histories.now waits.now }
    ensures ok { IfOk result (λ run. Explains x.now run histories.now) }
    ensures cycle { IfErr result (IsAuditFault x.now histories.now) }
{
    // law: a run is legal exactly if the event at each position may follow those before it
    legal_by_positions();
    let mut cursors = zeros(alloc, histories.len())?;
    let mut run = Run::with_room(alloc, count_events(histories))?;
    while let Some(role) = ready_role(x, histories, waits, cursors.as_slice()) {
        let index = *cursors.at(role);
        let history = histories[role].as_slice();
        let len = history.len();
        prove!(index < len);
        run.push(history[index])?;
        cursors.replace(role, index + 1);
    }
    match unfinished_role(histories, cursors.as_slice()) {
        None => Ok(run),
        Some(role) => {
            let points = cycle_from(alloc, x, histories, cursors.as_slice(), role)?;
            Err(AuditNo::Cycle(points))
        }
    }
}

/// So many zeros.
fn zeros(alloc: Global, count: usize) -> Result<Seq<usize>, NoMemory>
    ensures { IfOk result (λ list. list ≡ replicate count 0) }
{
    let mut list = Seq::new(alloc);
    for place in 0..count {
        list.push(0)?;
    }
    Ok(list)
}

/// How many events there are; it is room alone that depends on it.
fn count_events(histories: &[Run]) -> usize {
    let mut count: usize = 0;
    for history in histories {
        count = count.saturating_add(history.len());
    }
    count
}

/// The first role whose next event may come.
fn ready_role(x: &Expanded, histories: &[Run], waits: &[Waits], cursors: &[usize]) -> Option<usize>
    requires histories { AreHistories x.now histories.now }
    requires waits { HaveWaits x.now histories.now waits.now }
    requires count { length cursors.now ≡ length histories.now }
    requires merged { AreWithin histories.now cursors.now }
    ensures { MatchOption result
        ((role : ℕ) → IsStuck x.now histories.now cursors.now role)
        (IsReady x.now histories.now cursors.now) }
{
    for role in 0..histories.len() {
        if is_ready(x, histories, waits, cursors, role) {
            return Some(role);
        }
    }
    None
}

/// Whether the role's next event may come.
fn is_ready(
    x: &Expanded,
    histories: &[Run],
    waits: &[Waits],
    cursors: &[usize],
    role: usize,
) -> bool
    requires histories { AreHistories x.now histories.now }
    requires waits { HaveWaits x.now histories.now waits.now }
    requires count { length cursors.now ≡ length histories.now }
    requires merged { AreWithin histories.now cursors.now }
    requires within { role < length histories.now }
    ensures { MatchBool result (IsReady x.now histories.now cursors.now role)
        (IsStuck x.now histories.now cursors.now role) }
{
    let history = histories[role].as_slice();
    let index = cursors[role];
    if index >= history.len() {
        return false;
    }
    may_come(x, cursors, &history[index], *waits[role].at(index))
}

/// Whether the event is an emission, or what it receives is merged.
fn may_come(x: &Expanded, cursors: &[usize], event: &Event, wait: usize) -> bool
    requires fits { Fits x.now (instance_of event.now) }
    requires count { length cursors.now ≡ length x.now.roles }
    ensures { (histories : List (List Event)) → IsWait x.now histories event.now wait →
        AreWithin histories cursors.now →
        MatchBool result (MayCome x.now histories cursors.now event.now)
        (IsHeldBack x.now histories cursors.now event.now) }
{
    match event {
        Event::Emit(_) => true,
        Event::Receive(instance) => {
            let sender = x.messages.at(instance.message as usize).sender;
            wait < cursors[sender as usize]
        }
    }
}

/// The first role whose history is not merged to its end.
fn unfinished_role(histories: &[Run], cursors: &[usize]) -> Option<usize>
    requires { length cursors.now ≡ length histories.now }
    ensures { MatchOption result
        ((role : ℕ) → ¬ IsUnfinished histories.now cursors.now role)
        (IsUnfinished histories.now cursors.now) }
{
    for (role, history) in histories.iter().enumerate() {
        if cursors[role] < history.len() {
            return Some(role);
        }
    }
    None
}
