ghost use Rattle.std.specs.Prelude.{◌≡◌, ◌<◌, length, slice_get, Some};

use super::entry::Entry;

/// A stamped history that is read entry by entry.
pub trait History {
    ghost use Rattle.std.specs.Prelude.{List};
    ghost use Rattle.stamped_history.specs.declared.entry.Entry.{Entry as Stamped};

    // Its entries, in order.
    ghost entries: { Self → List Stamped };

    /// How many entries there are.
    fn len(&self) -> usize
        ensures { result ≡ length (entries self.now) };

    /// The entry at the index, from 0.
    fn entry(&self, i: usize) -> Entry
        requires { i < length (entries self.now) }
        ensures { slice_get (entries self.now) i ≡ Some result };
}
