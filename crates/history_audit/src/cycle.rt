ghost use Rattle.std.specs.Prelude.{◌≡◌, ◌≢◌, ◌<◌, IfOk, length, MatchOption, ℕ, slice_get, Some};
ghost use Rattle.std.specs.List.{All};
ghost use Rattle.bspl_types.specs.declared.event.Event.{Event};
ghost use Rattle.bspl_types.specs.Admission.{IsAdmitted};
ghost use Rattle.bspl_types.specs.Expansion.{message_of};
ghost use Rattle.bspl_types.specs.History.{instance_of, IsRun};
ghost use Rattle.history_audit.specs.BadPlace.{AllMayHappen};
ghost use Rattle.history_audit.specs.Cycle.{IsCycle};
ghost use Rattle.history_audit.specs.Histories.{AreHistories};
ghost use Rattle.history_audit.specs.inner.Merging.{IsStuck, IsUnfinished};
ghost use Rattle.history_audit.specs.inner.Rings.{HasRoleAt, IsLowest, IsRing};

use super::audit_no::{Point, PointList};
use bspl_types::{Event, Expanded, Run};
use list_base::{NoMemory, Seq};
use std::alloc::Global;

/// The circle into which one comes from an unfinished role, if one goes from each role to the
/// sender for which its next event waits. It begins with its lowest role.
pub(crate) fn cycle_from(
    alloc: Global,
    x: &Expanded,
    histories: &[Run],
    cursors: &[usize],
    start: usize,
) -> Result<PointList, NoMemory>
    requires admitted { IsAdmitted x.now }
    requires histories { AreHistories x.now histories.now }
    requires sent { AllMayHappen x.now histories.now }
    requires count { length cursors.now ≡ length histories.now }
    requires stuck { (role : ℕ) → IsStuck x.now histories.now cursors.now role }
    requires unfinished { IsUnfinished histories.now cursors.now start }
    ensures { IfOk result (IsCycle x.now histories.now) }
{
    let path = ring_from(alloc, x, histories, cursors, start)?;
    let ring = path.as_slice();
    let lowest = lowest_role(ring);
    let mut points = Seq::from_slice(alloc, &ring[lowest..])?;
    points.append(&ring[..lowest])?;
    Ok(points)
}

/// The circle, from the role on at which one comes into it.
fn ring_from(
    alloc: Global,
    x: &Expanded,
    histories: &[Run],
    cursors: &[usize],
    start: usize,
) -> Result<PointList, NoMemory>
    requires admitted { IsAdmitted x.now }
    requires histories { AreHistories x.now histories.now }
    requires sent { AllMayHappen x.now histories.now }
    requires count { length cursors.now ≡ length histories.now }
    requires stuck { (role : ℕ) → IsStuck x.now histories.now cursors.now role }
    requires unfinished { IsUnfinished histories.now cursors.now start }
    ensures { IfOk result (IsRing x.now histories.now) }
{
    let mut path = Seq::new(alloc);
    let mut role = start;
    'path: loop {
        let history = histories[role].as_slice();
        let len = history.len();
        let index = cursors[role];
        prove!(index < len);
        if let Some(first) = index_of_role(path.as_slice(), role) {
            return Seq::from_slice(alloc, &path.as_slice()[first..]);
        }
        path.push(Point {
            role: role as u32,
            place: index + 1,
        })?;
        role = sender_of(x, history, index);
    }
}

/// The role that sends the message of the event at the index.
fn sender_of(x: &Expanded, history: &[Event], index: usize) -> usize
    requires fit { IsRun x.now history.now }
    requires within { index < length history.now }
    ensures { (event : Event) → slice_get history.now index ≡ Some event →
        result ≡ (message_of x.now (instance_of event).message).sender }
{
    let instance = history[index].instance();
    x.messages.at(instance.message as usize).sender as usize
}

/// The index of the point of the role.
fn index_of_role(points: &[Point], role: usize) -> Option<usize>
    ensures { MatchOption result (All (λ p. p.role ≢ role) points.now)
        (HasRoleAt points.now role) }
{
    for (index, point) in points.iter().enumerate() {
        if point.role as usize == role {
            return Some(index);
        }
    }
    None
}

/// The index of the point with the lowest role.
fn lowest_role(points: &[Point]) -> usize
    requires { 0 < length points.now }
    ensures { IsLowest points.now result }
{
    let mut lowest = 0;
    for index in 1..points.len() {
        if points[index].role < points[lowest].role {
            lowest = index;
        }
    }
    lowest
}
