ghost use Rattle.std.specs.Prelude.{◌≡◌, ◌+◌, ◌<◌, length, min, slice_get, Some};

use local_store::Store;
use stamped_history::Entry;

/// Where a part of a list ends that has at most so many items from an index on.
pub(crate) fn end_of(from: u32, most: u32, count: u32) -> u32
    ensures { result ≡ min (from + most) count }
{
    match from.checked_add(most) {
        Some(end) => end.min(count),
        None => count,
    }
}

/// The entry of the history at the index.
pub(crate) fn entry_at(store: &Store, index: u32) -> Entry
    requires { index < length store.now.entries }
    ensures { slice_get store.now.entries index ≡ Some result }
{
    let (event, stamp) = store.event(index);
    let number = store.number(index);
    Entry {
        event,
        stamp,
        number,
    }
}
