ghost use Rattle.std.specs.Prelude.{◌≡◌, ◌<◌, length, slice_get, Some};

use local_store::Store;
use stamped_history::Entry;

/// The entry at the index, from 0.
pub fn entry_at(store: &Store, index: u32) -> Entry
    requires { index < length store.now.entries }
    ensures { slice_get store.now.entries index ≡ Some result }
{
    let (event, stamp) = store.event(index);
    Entry {
        event,
        stamp,
        number: store.number(index),
    }
}
