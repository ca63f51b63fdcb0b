ghost use Rattle.std.specs.Prelude.{◌≡◌, IfOk};
ghost use Rattle.live_role.specs.RefusedJournal.{journal_line};

use list_base::{Bytes, NoMemory};
use std::alloc::Global;

/// Why a role does not begin with its journal. No reply was written then.
#[derive(Clone, Copy, Debug, PartialEq, Eq)]
pub enum JournalRefusal {
    /// The line of the file with this number, from 1, makes no event.
    NoEvent { line: u64 },
    /// The file is no journal of this role of this protocol.
    AnotherJournal,
    /// Another process keeps lines in the file.
    InUse,
    /// The system refused a call on the file.
    Failed,
}

/// The line in which the refusal is reported.
pub fn journal_line(alloc: Global, refusal: JournalRefusal) -> Result<Bytes, NoMemory>
    ensures { IfOk result (λ text. text ≡ journal_line refusal) }
{
    match refusal {
        JournalRefusal::NoEvent { line } => no_event_line(alloc, line),
        JournalRefusal::AnotherJournal => Bytes::from_slice(alloc, b"refused J2\n"),
        JournalRefusal::InUse => Bytes::from_slice(alloc, b"refused J3\n"),
        JournalRefusal::Failed => Bytes::from_slice(alloc, b"refused J4\n"),
    }
}

/// The line that names the line without an event.
fn no_event_line(alloc: Global, number: u64) -> Result<Bytes, NoMemory>
    ensures { IfOk result (λ text. text ≡ journal_line (JournalRefusal.NoEvent number)) }
{
    let mut text = Bytes::from_slice(alloc, b"refused J1 ")?;
    text.append(number.to_string(alloc)?.as_bytes())?;
    text.push(b'\n')?;
    Ok(text)
}
