ghost use Rattle.std.specs.Prelude.{◌≡◌, ◌+◌, ◌<◌, ◌≤◌, length, IsErrOf, OnErr, OnOk};
ghost use Rattle.bspl_io.specs.Faults.{last_count};
ghost use Rattle.role_journal.specs.Counts.{HasOutcome, after_fault, after_restart};
ghost use Rattle.role_journal.specs.Crash.{Leaves, LeavesTorn, Stays, TimePasses};
ghost use Rattle.role_journal.specs.Image.{HasBytes, IsTorn};

use bspl_io::{Failed, Trouble};

/// A disk of a fixed size. Until a sync, a crash may leave any bytes where something was written.
pub trait Disk {
    ghost use Rattle.std.specs.Prelude.{◌≡◌, ◌≤◌, false, List, ℕ};
    ghost use Rattle.role_journal.specs.Counts.{Counts};

    // What a read gives.
    ghost seen: { Self → List ℕ };

    // Whether a crash now may leave the image.
    ghost may_leave: { Self → List ℕ → Type 0 };

    // Whether a crash at some moment since that time may have left the image.
    ghost left_since: { Self → ℕ → List ℕ → Type 0 };

    // The time since the last restart. It moves with what is written or synced.
    ghost clock: { Self → ℕ };

    // How often the disk failed.
    ghost counts: { Self → Counts };

    // Whether memory may run out at the next call.
    ghost may_lack: { Self → Type 0 };

    /// How many bytes the disk has.
    fn size(&self) -> u64
        ensures { result ≡ length (seen self.now) };

    /// Reads the bytes from the offset on.
    fn read(&mut self, at: u64, into: &mut [u8]) -> Result<(), Failed>
        requires within { at + length into.old ≤ length (seen self.old) }
        requires countable { (counts self.old).faults < last_count }
        ensures bytes { OnOk result (HasBytes (seen self.old) at into.new) }
        ensures stays { Stays seen may_leave clock left_since self.old self.new }
        ensures failed { OnErr result (counts self.new ≡ after_fault (counts self.old)) }
        ensures still { OnOk result (counts self.new ≡ counts self.old) };

    /// Writes the bytes from the offset on. A failed write may leave any bytes there.
    fn write(&mut self, at: u64, bytes: &[u8]) -> Result<(), Trouble>
        requires within { at + length bytes.now ≤ length (seen self.old) }
        requires countable { (counts self.old).faults < last_count }
        ensures bytes { OnOk result (HasBytes (seen self.new) at bytes.now) }
        ensures others { IsTorn at (length bytes.now) (seen self.old) (seen self.new) }
        ensures crash { LeavesTorn at (length bytes.now) (may_leave self.old)
            (may_leave self.new) }
        ensures time { TimePasses (clock self.old) (clock self.new) (left_since self.old)
            (left_since self.new) (may_leave self.new) }
        ensures outcome { HasOutcome counts result self.old self.new }
        ensures memory { IsErrOf result Trouble.NoMemory → may_lack self.new };

    /// After it, a crash leaves what a read gives.
    fn sync(&mut self) -> Result<(), Trouble>
        requires countable { (counts self.old).faults < last_count }
        ensures durable { OnOk result (Leaves (seen self.new) (may_leave self.new)) }
        ensures stays { Stays seen may_leave clock left_since self.old self.new }
        ensures outcome { HasOutcome counts result self.old self.new }
        ensures memory { IsErrOf result Trouble.NoMemory → may_lack self.new };

    /// Starts the disk again after a crash: it has an image that the crash may leave, all of it
    /// synced.
    fn restart(&mut self)
        ensures image { may_leave self.old (seen self.new) }
        ensures size { length (seen self.new) ≡ length (seen self.old) }
        ensures settled { Leaves (seen self.new) (may_leave self.new) }
        ensures clock { clock self.new ≡ 0 }
        ensures counts { counts self.new ≡ after_restart (counts self.old) };

    // Whatever a disk holds, a crash now may leave.
    ghost leaves_seen: { (d : Self) → may_leave d (seen d) };

    // What a crash now may leave, one since an earlier moment may have left.
    ghost counts_now: { (d : Self) (t : ℕ) (c : List ℕ) → t ≤ clock d → may_leave d c →
        left_since d t c };

    // Since this moment there is no other.
    ghost only_now: { (d : Self) (c : List ℕ) → left_since d (clock d) c → may_leave d c };

    // Without a failure there was no restart after one.
    ghost calm: { (d : Self) → (counts d).faults ≡ 0 → (counts d).restarted ≡ false };
}
