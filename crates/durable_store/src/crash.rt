ghost use Rattle.durable_store.specs.Restored.{CrashesAreRestored};

use super::laws::{histories_are_native, journals_are_one};
use role_journal::Disk;

/// A law: whenever a crash comes, between two calls or within an emission or a reception, `start`
/// on what it leaves gives back the store of the acknowledged events, perhaps followed by the one
/// event that was under way; only a fault of the disk, or out of memory, refuses it. A crash within
/// `start` leaves nothing that it might not have left before, as `start` promises itself.
pub fn crash_is_restored<D: Disk>()
    ensures { CrashesAreRestored D.seen D.may_leave D.clock D.left_since D.counts }
{
    // laws: an image is a journal of one list of entries, and no place of a history is alien
    journals_are_one();
    histories_are_native();
}
