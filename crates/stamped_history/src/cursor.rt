ghost use Rattle.std.specs.Prelude.{◌≡◌, ◌+◌, ◌<◌, length, map, IfOk};
ghost use Rattle.stamped_history.specs.inner.Cursors.{cursor_at, earlier, lower, IsLowestOf};

use super::entry::{Entry, RoleEntry};
use super::history::History;
use list_base::{NoMemory, Seq};
use std::alloc::Global;

/// How far a history is merged.
#[derive(Clone, Copy, Debug)]
pub struct Cursor {
    /// How many of its entries are merged.
    pub index: usize,
    /// The entry after these, unless all are merged.
    pub next: Option<Entry>,
}

/// The cursor in the history at the index.
fn cursor_at<H: History>(history: &H, index: usize) -> Cursor
    ensures { result ≡ cursor_at (H.entries history.now) index }
{
    let next = if index < history.len() {
        Some(history.entry(index))
    } else {
        None
    };
    Cursor { index, next }
}

/// The cursor one entry on.
pub fn advance<H: History>(history: &H, cursor: &Cursor) -> Cursor
    requires { cursor.now.index < length (H.entries history.now) }
    ensures { result ≡ cursor_at (H.entries history.now) (cursor.now.index + 1) }
{
    let len = history.len();
    let index = cursor.index;
    prove!(index < len);
    cursor_at(history, index + 1)
}

/// The cursors at the start of the histories.
pub fn first_cursors<H: History>(alloc: Global, histories: &[H]) -> Result<Seq<Cursor>, NoMemory>
    ensures { IfOk result (λ all. all ≡ map (λ h. cursor_at (H.entries h) 0) histories.now) }
{
    let mut cursors = Seq::new(alloc);
    for history in histories {
        cursors.push(cursor_at(history, 0))?;
    }
    Ok(cursors)
}

/// The next entry that comes before those of all other histories.
pub fn lowest(cursors: &[Cursor]) -> Option<RoleEntry>
    ensures { IsLowestOf cursors.now result }
{
    let mut lowest = None;
    for (role, cursor) in cursors.iter().enumerate() {
        lowest = lower(lowest, role, cursor.next);
    }
    lowest
}

/// The entry found so far, unless the role's next one has a lower stamp.
fn lower(found: Option<RoleEntry>, role: usize, next: Option<Entry>) -> Option<RoleEntry>
    ensures { result ≡ lower found role next }
{
    match next {
        None => found,
        Some(entry) => match found {
            None => Some(RoleEntry { role, entry }),
            Some(first) => Some(earlier(first, RoleEntry { role, entry })),
        },
    }
}

/// The first of the two, unless the other has a lower stamp.
fn earlier(first: RoleEntry, other: RoleEntry) -> RoleEntry
    ensures { result ≡ earlier first other }
{
    if other.entry.stamp < first.entry.stamp {
        other
    } else {
        first
    }
}
