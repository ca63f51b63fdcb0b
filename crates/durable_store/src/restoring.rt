ghost use Rattle.std.specs.Prelude.{◌≡◌, ◌+◌, ◌<◌, ◌≤◌, [], IfErr, IfOk, OnOk, length};
ghost use Rattle.std.specs.List.{All};
ghost use Rattle.bspl_io.specs.Faults.{last_count};
ghost use Rattle.role_journal.specs.Counts.{HasOutcome};
ghost use Rattle.role_journal.specs.Crash.{Leaves, Stays};
ghost use Rattle.role_journal.specs.Journal.{places};
ghost use Rattle.durable_store.specs.Start.{HoldsKeys, IsStartRefusal};
ghost use Rattle.durable_store.specs.inner.Begun.{IsBegun, IsBlank, IsOfSame, IsRestored, Stops};
ghost use Rattle.durable_store.specs.inner.Gates.{IsLeftAlone, entry_calls, restore_calls};

use super::laws::begun_are_native;
use super::places::{first_open, next_entry};
use super::refusals::StartRefusal;
use bspl_io::Trouble;
use bspl_types::{Admitted, Key, equal_values_are_one};
use list_base::NoMemory;
use local_store::Store;
use role_journal::{Disk, bodies_are_whole, count_places, is_open};
use std::alloc::Global;

/// The store whose entries the disk has, unless a place is alien.
pub fn restore<D: Disk>(
    alloc: Global,
    a: &Admitted,
    role: u32,
    disk: &mut D,
    keys: &[Key],
) -> Result<Store, StartRefusal>
    requires role { role < length a.now.roles }
    requires whole { All (λ key. length key ≡ length a.now.keys) keys.now }
    requires few { length keys.now ≤ 4294967295 }
    requires countable { (D.counts disk.old).faults < last_count }
    ensures ok { IfOk result (IsRestored a.now role keys.now (D.seen disk.old)) }
    ensures settled { OnOk result (Leaves (D.seen disk.new) (D.may_leave disk.new)) }
    ensures refused { IfErr result (IsStartRefusal a.now role keys.now (D.seen disk.old)
        (D.counts disk.old) (D.counts disk.new)) }
    ensures still { OnOk result (D.counts disk.new ≡ D.counts disk.old) }
    ensures alone { IsLeftAlone D.seen D.may_leave D.clock D.left_since disk.old disk.new }
    ensures soon { D.clock disk.new ≤ D.clock disk.old +
        restore_calls (places (length (D.seen disk.old))) result }
{
    // law: no place of the first entries is alien
    begun_are_native();
    // law: a body fills its place
    bodies_are_whole();
    let count = synced_places(disk)?;
    let mut store = blank_store(alloc, a, role, keys, count)?;
    restore_entries(disk, &mut store, count)?;
    if let Some(place) = first_open(disk, store.len().saturating_add(1), count)? {
        return Err(StartRefusal::Alien { place });
    }
    Ok(store)
}

/// How many places the disk has, once all that it holds is synced.
fn synced_places<D: Disk>(disk: &mut D) -> Result<u32, Trouble>
    requires countable { (D.counts disk.old).faults < last_count }
    ensures count { IfOk result (λ count. count ≡ places (length (D.seen disk.old))) }
    ensures durable { OnOk result (Leaves (D.seen disk.new) (D.may_leave disk.new)) }
    ensures stays { Stays D.seen D.may_leave D.clock D.left_since disk.old disk.new }
    ensures outcome { HasOutcome D.counts result disk.old disk.new }
{
    disk.sync()?;
    Ok(count_places(disk))
}

/// A store of the role with these keys, without entries, and with room for so many.
fn blank_store(
    alloc: Global,
    a: &Admitted,
    role: u32,
    keys: &[Key],
    room: u32,
) -> Result<Store, NoMemory>
    requires role { role < length a.now.roles }
    requires whole { All (λ key. length key ≡ length a.now.keys) keys.now }
    requires few { length keys.now ≤ 4294967295 }
    ensures { IfOk result (IsBlank a.now role keys.now room) }
{
    let mut store = Store::new(alloc, a, role)?;
    hold_keys(&mut store, keys)?;
    store.reserve(room)?;
    Ok(store)
}

/// Makes all of the keys held.
fn hold_keys(store: &mut Store, keys: &[Key]) -> Result<(), NoMemory>
    requires none { store.old.keys ≡ [] }
    requires whole { All (λ key. length key ≡ length store.old.protocol.keys) keys.now }
    requires few { length keys.now ≤ 4294967295 }
    ensures held { OnOk result (HoldsKeys store.new.keys keys.now) }
    ensures same { OnOk result (store.new ≡ record store.old { keys = store.new.keys }) }
{
    // law: equal lists of values are one
    equal_values_are_one();
    for key in keys {
        store.add_key(key)?;
    }
    Ok(())
}

/// Appends the entries of the places up to the first closed one.
fn restore_entries<D: Disk>(disk: &mut D, store: &mut Store, count: u32) -> Result<(), StartRefusal>
    requires blank { store.old.entries ≡ [] }
    requires spare { store.old.spare ≡ count }
    requires count { count ≡ places (length (D.seen disk.old)) }
    requires countable { (D.counts disk.old).faults < last_count }
    ensures same { IsOfSame store.old store.new }
    ensures begun { IsBegun (D.seen disk.old) store.new }
    ensures stops { OnOk result (Stops (D.seen disk.old) store.new) }
    ensures refused { IfErr result (IsStartRefusal store.new.protocol store.new.role store.new.keys
        (D.seen disk.old) (D.counts disk.old) (D.counts disk.new)) }
    ensures still { OnOk result (D.counts disk.new ≡ D.counts disk.old) }
    ensures alone { IsLeftAlone D.seen D.may_leave D.clock D.left_since disk.old disk.new }
    ensures soon { D.clock disk.new ≤ D.clock disk.old +
        entry_calls count (length store.new.entries) result }
{
    // law: no place of the first entries is alien
    begun_are_native();
    // law: the store's protocol is admitted
    store.is_consistent();
    for place in 0..count {
        if !is_open(disk, place)? {
            return Ok(());
        }
        match next_entry(disk, store, place)? {
            Some(entry) => store.add_entry(&entry),
            None => return Err(StartRefusal::Alien { place }),
        }
    }
    Ok(())
}
