ghost use Rattle.std.specs.Prelude.{◌≡◌, ◌≢◌, ◌-◌, ◌+◌, ◌<◌, length, IfSome, IfNone};
ghost use Rattle.clause_core.specs.Propagation.{IsFalsified};
ghost use Rattle.sat_trail.specs.Entry.{values_of};
ghost use Rattle.clause_core.specs.Numbering.{live};
ghost use Rattle.sat_trail.specs.inner.Propagation.{Extends, HasWatches};
ghost use Rattle.sat_trail.specs.inner.Visit.{HasCome};
ghost use Rattle.sat_trail.specs.inner.Watches.{AreLinked};

use super::clause_store::ClauseStore;
use super::propagation::propagate_entry;
use super::set_literals::Entries;
use super::watch_lists::WatchLists;

/// Propagates the entry at `head`, if there is one, and passes it unless a clause is false.
pub fn propagate_head(
    store: &ClauseStore,
    lists: &mut WatchLists,
    set: &mut Entries,
    head: &mut usize,
    level: u32,
) -> Option<u32>
    requires { HasCome store.now lists.old.cells.items lists.old.heads.items set.old level
        head.old }
    ensures extends { Extends store.now level set.old set.new }
    ensures watched { HasWatches store.now lists.new.cells.items set.new level head.new
        (length store.now) }
    ensures linked { AreLinked set.old.vars lists.new.cells.items lists.new.heads.items }
    ensures falsified { IfSome result
        (IsFalsified (live store.now) (values_of set.new.entries)) }
{
    if *head == set.len() {
        return None;
    }
    let found = propagate_entry(store, lists, set, *head, level);
    if found.is_none() {
        *head += 1;
    }
    found
}
