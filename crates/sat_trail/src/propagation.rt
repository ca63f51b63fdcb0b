ghost use Rattle.std.specs.Prelude.{◌≡◌, ◌≢◌, ◌-◌, ◌+◌, ◌*◌, ◌<◌, length, IfSome, IfNone, Some};
ghost use Rattle.std.specs.Bool.{OnTrue, OnFalse};
ghost use Rattle.clause_core.specs.Propagation.{IsFalsified};
ghost use Rattle.sat_trail.specs.Entry.{values_of};
ghost use Rattle.clause_core.specs.Numbering.{live};
ghost use Rattle.sat_trail.specs.State.{IsNumberUpTo};
ghost use Rattle.sat_trail.specs.inner.Examination.{IsSettledAt};
ghost use Rattle.sat_trail.specs.inner.Excuse.{IsTrueBy};
ghost use Rattle.sat_trail.specs.inner.Propagation.{CanPropagate, Extends, HasWatches};
ghost use Rattle.sat_trail.specs.inner.Visit.{IsLastLeft, HasCome, CanPass, CanVisit, IsVisit, KeepsLists};
ghost use Rattle.sat_trail.specs.inner.Watches.{AreLinked};

use super::clause_store::ClauseStore;
use super::entry::Entry;
use super::examination::{Finding, examine};
use super::packed_lit::PackedLit;
use super::set_literals::Entries;
use super::watch_choice::not_false;
use super::watch_lists::WatchLists;

/// Where a walk along the list of a false literal has come to.
#[derive(Clone, Copy)]
struct Cursor {
    /// The position of the entry that makes the literal false.
    position: usize,
    /// The literal whose list it is.
    lit: PackedLit,
    /// The number of the clause before, or 0.
    before: u32,
    /// The number of the clause here, or 0 at the end.
    number: u32,
}

/// What becomes of a clause in the list of a literal that is false.
enum Visit {
    /// It stays. The clause of this number comes next.
    Stays(u32),
    /// It moved to the list of another literal. The clause of this number came next.
    Moves(u32),
    /// The clause is false.
    Fails,
}

/// Examines the new clause of the number, if it is live, and sets its literal if that is the only
/// one left. True if the clause is false.
fn propagate_new(store: &ClauseStore, set: &mut Entries, number: u32, level: u32) -> bool
    requires fits { CanPropagate store.now set.old level }
    requires within { IsNumberUpTo (length store.now) number }
    ensures extends { Extends store.now level set.old set.new }
    ensures settled { OnFalse result (IsSettledAt store.now number (values_of set.new.entries)) }
    ensures falsified { OnTrue result
        (IsFalsified (live store.now) (values_of set.new.entries) number) }
{
    if !store.is_live(number) {
        return false;
    }
    match examine(set, store.clause(number).lits()) {
        Finding::Settled => false,
        Finding::Forces(lit) => {
            set.push(Entry {
                lit,
                level,
                reason: Some(number),
            });
            false
        }
        Finding::Falsified => true,
    }
}

/// Examines the clauses that were not examined yet, up to one that is false.
pub fn examine_new(
    store: &ClauseStore,
    lists: &WatchLists,
    set: &mut Entries,
    examined: &mut usize,
    head: usize,
    level: u32,
) -> Option<u32>
    requires fits { CanPropagate store.now set.old level }
    requires watched { HasWatches store.now lists.now.cells.items set.old level head examined.old }
    ensures extends { Extends store.now level set.old set.new }
    ensures watched { HasWatches store.now lists.now.cells.items set.new level head examined.new }
    ensures all { IfNone result (examined.new ≡ length store.now) }
    ensures falsified { IfSome result
        (IsFalsified (live store.now) (values_of set.new.entries)) }
{
    while *examined < store.len() {
        let number = *examined as u32 + 1;
        if propagate_new(store, set, number, level) {
            return Some(number);
        }
        *examined += 1;
    }
    None
}

/// Sets the only literal of the clause that is left, unless it is false too. True if it is set.
fn force(store: &ClauseStore, set: &mut Entries, lit: PackedLit, number: u32, level: u32) -> bool
    requires fits { CanPropagate store.now set.old level }
    requires left { IsLastLeft store.now set.old.entries number lit }
    requires untrue { values_of set.old.entries lit.var ≢ Some lit.positive }
    ensures extends { Extends store.now level set.old set.new }
    ensures sets { OnTrue result (IsTrueBy set.new.entries level lit) }
    ensures fails { OnFalse result
        (IsFalsified (live store.now) (values_of set.new.entries) number) }
{
    if set.is_false(lit) {
        return false;
    }
    set.push(Entry {
        lit: lit.lit(),
        level,
        reason: Some(number),
    });
    true
}

/// Visits the clause that the cursor has come to. The clause is not touched if its other watched
/// literal is true. A clause that was removed leaves the list.
fn visit_clause(
    store: &ClauseStore,
    lists: &mut WatchLists,
    set: &mut Entries,
    at: Cursor,
    level: u32,
) -> Visit
    requires { CanVisit store.now lists.old.cells.items lists.old.heads.items set.old level at }
    ensures extends { Extends store.now level set.old set.new }
    ensures watched { HasWatches store.now lists.new.cells.items set.new level at.position
        (length store.now) }
    ensures linked { KeepsLists set.old.vars lists.old.cells.items lists.new.cells.items
        lists.old.heads.items lists.new.heads.items at.lit }
    ensures visit { IsVisit lists.old.cells.items lists.new.cells.items lists.old.heads.items
        lists.new.heads.items set.new.entries level at result }
    ensures falsified { result ≡ Visit.Fails →
        IsFalsified (live store.now) (values_of set.new.entries) at.number }
{
    let cell = lists.watches(at.number, at.lit);
    let (next, kept) = (cell.one.link, cell.other.lit);
    if set.is_true(kept) {
        return Visit::Stays(next);
    }
    if !store.is_live(at.number) {
        return Visit::Moves(lists.unlink(set.vars(), at.lit, at.before, at.number));
    }
    match not_false(set, store.lits(at.number), kept) {
        Some(to) => Visit::Moves(lists.move_watch(set.vars(), at.lit, at.before, at.number, to)),
        None => {
            if force(store, set, kept, at.number, level) {
                Visit::Stays(next)
            } else {
                Visit::Fails
            }
        }
    }
}

/// Visits the clauses that watch the literal that the entry at the position makes false, up to one
/// that is false.
pub fn propagate_entry(
    store: &ClauseStore,
    lists: &mut WatchLists,
    set: &mut Entries,
    position: usize,
    level: u32,
) -> Option<u32>
    requires { CanPass store.now lists.old.cells.items lists.old.heads.items set.old level
        position }
    ensures extends { Extends store.now level set.old set.new }
    ensures watched { HasWatches store.now lists.new.cells.items set.new level position
        (length store.now) }
    ensures passed { IfNone result (HasWatches store.now lists.new.cells.items set.new level
        (position + 1) (length store.now)) }
    ensures linked { AreLinked set.old.vars lists.new.cells.items lists.new.heads.items }
    ensures falsified { IfSome result
        (IsFalsified (live store.now) (values_of set.new.entries)) }
{
    let lit = PackedLit::of(set.at(position).lit.negation());
    let mut before = 0;
    let mut number = lists.first(lit);
    for _passed in 0..lists.cells.len() {
        if number == 0 {
            return None;
        }
        let at = Cursor {
            position,
            lit,
            before,
            number,
        };
        match visit_clause(store, lists, set, at, level) {
            Visit::Stays(next) => {
                before = number;
                number = next;
            }
            Visit::Moves(next) => number = next,
            Visit::Fails => return Some(number),
        }
    }
    None
}

/// Propagates the entries from `head` on, up to a clause that is false.
pub fn propagate_entries(
    store: &ClauseStore,
    lists: &mut WatchLists,
    set: &mut Entries,
    head: &mut usize,
    level: u32,
) -> Option<u32>
    requires { HasCome store.now lists.old.cells.items lists.old.heads.items set.old level
        head.old }
    ensures extends { Extends store.now level set.old set.new }
    ensures watched { HasWatches store.now lists.new.cells.items set.new level head.new
        (length store.now) }
    ensures linked { AreLinked set.old.vars lists.new.cells.items lists.new.heads.items }
    ensures all { IfNone result (head.new ≡ length set.new.entries) }
    ensures falsified { IfSome result
        (IsFalsified (live store.now) (values_of set.new.entries)) }
{
    while *head < set.len() {
        if let Some(number) = propagate_entry(store, lists, set, *head, level) {
            return Some(number);
        }
        *head += 1;
    }
    None
}
