ghost use Rattle.std.specs.Prelude.{◌≡◌, ◌+◌, ◌*◌, ◌<◌, ◌≤◌, ◌++◌, ◌∷◌, ◌↔◌, [], List, ℕ, length};
ghost use Rattle.std.specs.Prelude.{IfOk, IsErrOf, IsTrue, OnErr, OnOk};
ghost use Rattle.stamped_history.specs.declared.entry.Entry.{Entry};
ghost use Rattle.bspl_types.specs.declared.expanded.Expanded.{Expanded};
ghost use Rattle.bspl_types.specs.History.{instance_of};
ghost use Rattle.bspl_types.specs.Instance.{Fits};
ghost use Rattle.bspl_io.specs.Faults.{last_count};
ghost use Rattle.role_journal.specs.Counts.{Costs, after_fault};
ghost use Rattle.role_journal.specs.Crash.{CrashLeavesOnly, Stays};
ghost use Rattle.role_journal.specs.EntryBody.{IsEntry};
ghost use Rattle.role_journal.specs.Image.{HasBytes};
ghost use Rattle.role_journal.specs.Journal.{HasSameTail, IsBeforeOrAfter, IsOpen, KeepsJournal};
ghost use Rattle.role_journal.specs.Journal.{gate_of, places};

use super::body::Body;
use super::disk::Disk;
use bspl_io::{Failed, Trouble};
use stamped_history::Entry;

/// The bytes of a place: a gate and the body of an entry.
const PLACE: u64 = 562;

/// The byte of an open gate.
const OPEN: u8 = 1;

/// How many places the disk has.
pub fn count_places<D: Disk>(disk: &D) -> u32
    ensures { result ≡ places (length (D.seen disk.now)) }
{
    (disk.size() / PLACE).min(u64::from(u32::MAX)) as u32
}

/// Puts the entry into the first closed place. Its body is written and synced while its gate is
/// closed; then the gate alone is opened and synced. After `Ok` a crash leaves the entry.
pub fn append<D: Disk>(disk: &mut D, place: u32, entry: &Entry) -> Result<(), Trouble>
    requires room { place < places (length (D.seen disk.old)) }
    requires countable { (D.counts disk.old).faults < last_count }
    ensures ok { (entries : List Entry) → place ≡ length entries →
        KeepsJournal D.seen D.may_leave disk.old entries →
        OnOk result (KeepsJournal D.seen D.may_leave disk.new (entries ++ entry.now ∷ [])) }
    ensures any_moment { (entries : List Entry) → place ≡ length entries →
        KeepsJournal D.seen D.may_leave disk.old entries →
        CrashLeavesOnly D.clock D.left_since disk.old disk.new (IsBeforeOrAfter entries entry.now) }
    ensures tail { HasSameTail (D.seen disk.old) (D.seen disk.new) }
    ensures sized { (x : Expanded) → Fits x (instance_of entry.now.event) → IsEntry x entry.now }
    ensures costs { Costs D.clock D.counts 4 (IsErrOf result Trouble.Failed) disk.old disk.new }
    ensures memory { IsErrOf result Trouble.NoMemory → D.may_lack disk.new }
{
    let gate = PLACE * u64::from(place);
    let body = Body::of(entry);
    disk.write(gate + 1, body.as_slice())?;
    disk.sync()?;
    disk.write(gate, &[OPEN])?;
    Ok(disk.sync()?)
}

/// Whether the place is open.
pub fn is_open<D: Disk>(disk: &mut D, place: u32) -> Result<bool, Failed>
    requires room { place < places (length (D.seen disk.old)) }
    requires countable { (D.counts disk.old).faults < last_count }
    ensures gate { IfOk result (λ answer. IsTrue answer ↔ IsOpen (D.seen disk.old) place) }
    ensures stays { Stays D.seen D.may_leave D.clock D.left_since disk.old disk.new }
    ensures failed { OnErr result (D.counts disk.new ≡ after_fault (D.counts disk.old)) }
    ensures still { OnOk result (D.counts disk.new ≡ D.counts disk.old) }
{
    let mut gate = [0];
    disk.read(PLACE * u64::from(place), &mut gate)?;
    Ok(gate[0] == OPEN)
}

/// Reads the body of the place.
pub fn read_body<D: Disk>(disk: &mut D, place: u32, body: &mut [u8]) -> Result<(), Failed>
    requires whole { length body.old ≡ 561 }
    requires room { place < places (length (D.seen disk.old)) }
    requires countable { (D.counts disk.old).faults < last_count }
    ensures body { OnOk result (HasBytes (D.seen disk.old) (gate_of place + 1) body.new) }
    ensures stays { Stays D.seen D.may_leave D.clock D.left_since disk.old disk.new }
    ensures failed { OnErr result (D.counts disk.new ≡ after_fault (D.counts disk.old)) }
    ensures still { OnOk result (D.counts disk.new ≡ D.counts disk.old) }
{
    disk.read(PLACE * u64::from(place) + 1, body)
}
