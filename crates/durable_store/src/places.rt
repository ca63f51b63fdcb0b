ghost use Rattle.std.specs.Prelude.{◌≡◌, ◌+◌, ◌-◌, ◌<◌, ◌≤◌, List, ℕ, IfOk, MatchOption, OnErr, OnOk};
ghost use Rattle.std.specs.Prelude.{length};
ghost use Rattle.bspl_io.specs.Faults.{last_count};
ghost use Rattle.role_journal.specs.Counts.{after_fault};
ghost use Rattle.role_journal.specs.Crash.{Stays};
ghost use Rattle.role_journal.specs.Image.{HasBytes};
ghost use Rattle.role_journal.specs.Journal.{gate_of, places};
ghost use Rattle.durable_store.specs.inner.Begun.{Ends, GoesOn};
ghost use Rattle.durable_store.specs.inner.Gates.{AreClosed, IsFirstOpen, IsLeftAlone};

use bspl_io::Failed;
use local_store::Store;
use role_journal::{Disk, bodies_are_whole, entry_of, is_open, read_body};
use stamped_history::Entry;

/// The bytes of a place after its gate.
const BODY: usize = 561;

/// The entry of a place, if the store's history goes on with it.
pub fn next_entry<D: Disk>(disk: &mut D, store: &Store, place: u32) -> Result<Option<Entry>, Failed>
    requires room { place < places (length (D.seen disk.old)) }
    requires countable { (D.counts disk.old).faults < last_count }
    ensures entry { IfOk result (λ found. MatchOption found
        (Ends (D.seen disk.old) place store.now) (GoesOn (D.seen disk.old) place store.now)) }
    ensures stays { Stays D.seen D.may_leave D.clock D.left_since disk.old disk.new }
    ensures failed { OnErr result (D.counts disk.new ≡ after_fault (D.counts disk.old)) }
    ensures still { OnOk result (D.counts disk.new ≡ D.counts disk.old) }
{
    let mut body = [0; BODY];
    read_body(disk, place, &mut body)?;
    Ok(next_of(store, &body))
}

/// The entry of a body, if the store's history goes on with it.
fn next_of(store: &Store, body: &[u8]) -> Option<Entry>
    requires { length body.now ≡ 561 }
    ensures { (image : List ℕ) (place : ℕ) → HasBytes image (gate_of place + 1) body.now →
        MatchOption result (Ends image place store.now) (GoesOn image place store.now) }
{
    // law: a body fills its place
    bodies_are_whole();
    let entry = entry_of(store.admitted(), body)?;
    if !store.holds(&entry.event.instance().key) {
        return None;
    }
    if store.may_come(&entry) {
        return Some(entry);
    }
    None
}

/// The first open place from this one on, if there is one.
pub fn first_open<D: Disk>(disk: &mut D, from: u32, count: u32) -> Result<Option<u32>, Failed>
    requires count { count ≡ places (length (D.seen disk.old)) }
    requires countable { (D.counts disk.old).faults < last_count }
    ensures place { IfOk result (λ found. MatchOption found
        (AreClosed (D.seen disk.old) from count) (IsFirstOpen (D.seen disk.old) from count)) }
    ensures alone { IsLeftAlone D.seen D.may_leave D.clock D.left_since disk.old disk.new }
    ensures soon { D.clock disk.new ≤ D.clock disk.old + (count - from) }
    ensures failed { OnErr result (D.counts disk.new ≡ after_fault (D.counts disk.old)) }
    ensures still { OnOk result (D.counts disk.new ≡ D.counts disk.old) }
{
    for place in from..count {
        if is_open(disk, place)? {
            return Ok(Some(place));
        }
    }
    Ok(None)
}
