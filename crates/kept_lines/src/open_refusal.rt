use list_base::NoMemory;
use std::io;

/// Why a file was not opened as a journal. `open_journal` writes only to a new one; where `begin`
/// fails, what stands behind the lines may be cut off.
#[derive(Clone, Copy, Debug)]
pub enum OpenRefusal {
    /// The file is no journal with this head, or the head is empty or no text of lines.
    AnotherJournal,
    /// Another holds the file: another process, or another journal of this one.
    InUse,
    /// The system refused a call, or the path does not lead to a regular file.
    Failed(io::Error),
    /// Memory ran out.
    NoMemory,
}

impl From<io::Error> for OpenRefusal {
    fn from(error: io::Error) -> OpenRefusal {
        OpenRefusal::Failed(error)
    }
}

impl From<NoMemory> for OpenRefusal {
    fn from(_error: NoMemory) -> OpenRefusal {
        OpenRefusal::NoMemory
    }
}
