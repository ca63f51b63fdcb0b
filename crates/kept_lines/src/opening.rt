ghost use Rattle.std.specs.Prelude.{◌≡◌, ◌⊎◌, [], IfOk, IsErrOf};
ghost use Rattle.kept_lines.specs.Text.{AreTextLines};

use super::open_refusal::OpenRefusal;
use super::opened_journal::OpenedJournal;
use super::text::text_len;
use list_base::Bytes;
use std::alloc::Global;
use std::fs::{self, File, OpenOptions, TryLockError};
use std::io::{self, ErrorKind};
use std::os::fd::AsRawFd;
use std::os::unix::fs::{FileExt, OpenOptionsExt};

/// How many bytes are read at once.
const PIECE: usize = 1_048_576;

/// Opens the file as a journal that begins with the head, or makes it, readable by its owner alone.
/// As long as what this gives is alive, no other process opens it: the lock ends with the process.
///
/// The file and its folder are synced before the file is read, so that its name is durable. A new
/// file, or one in which a crash cut the head short (`FileKind::Unmade`), gets the head, and is
/// synced again. In no other case is anything written here. After `Failed` or `NoMemory` a file may
/// have been made, and hold none or a part of the head.
///
/// Of what is in the file no contract can speak: `OpenedJournal::opened_as` says what is made of
/// what was read.
pub fn open_journal(rt: &HostRuntime, path: &str, head: &[u8]) -> Result<OpenedJournal, OpenRefusal>
    ensures head { IfOk result (λ opened. opened.head ≡ head.now) }
    ensures text { ((AreTextLines head.now → ⊥) ⊎ (head.now ≡ [])) →
        IsErrOf result OpenRefusal.AnotherJournal }
{
    if head.is_empty() || text_len(head) < head.len() {
        return Err(OpenRefusal::AnotherJournal);
    }
    let file = held_file(rt, path)?;
    settle(rt, path, &file)?;
    let image = read_image(rt.alloc(), &file, head.len())?;
    OpenedJournal::opened_as(rt.alloc(), file, image, head)
}

/// Opens the regular file, or makes it, and locks it.
fn held_file(rt: &HostRuntime, path: &str) -> Result<File, OpenRefusal> {
    let file = opened_or_made(rt, path)?;
    if !file.metadata()?.is_file() {
        return Err(OpenRefusal::Failed(no_regular_file()));
    }
    match file.try_lock() {
        Ok(()) => Ok(file),
        Err(TryLockError::WouldBlock) => Err(OpenRefusal::InUse),
        Err(TryLockError::Error(error)) => Err(OpenRefusal::Failed(error)),
    }
}

/// The open file, which is none of the three standard streams: what is written to one that was
/// closed would land in it.
fn opened_or_made(rt: &HostRuntime, path: &str) -> io::Result<File> {
    let file = match access().create_new(true).open(rt, path) {
        Err(error) if error.kind() == ErrorKind::AlreadyExists => {
            if !fs::metadata(rt, path)?.is_file() {
                return Err(no_regular_file());
            }
            access().open(rt, path)?
        }
        made => made?,
    };
    if file.as_raw_fd() <= 2 {
        return file.try_clone();
    }
    Ok(file)
}

/// To read and to write. A file that is made is its owner's alone.
fn access() -> OpenOptions {
    let mut options = OpenOptions::new();
    options.read(true).write(true).mode(0o600);
    options
}

/// What is said of a folder, a device and the like.
fn no_regular_file() -> io::Error {
    io::Error::new(ErrorKind::InvalidInput, "not a regular file")
}

/// Syncs the file and its folder.
fn settle(rt: &HostRuntime, path: &str, file: &File) -> io::Result<()> {
    file.sync_all()?;
    let mut folder = fs::canonicalize(rt, path)?;
    folder.pop();
    File::open(rt, folder.as_str())?.sync_all()
}

/// Reads the first bytes of the file: all of them, or more than `least` with a 0 among them.
fn read_image(alloc: Global, file: &File, least: usize) -> Result<Bytes, OpenRefusal> {
    let Ok(mut piece) = vec![in alloc; 0; PIECE] else {
        return Err(OpenRefusal::NoMemory);
    };
    let mut image = Bytes::new(alloc);
    let mut has_zero = false;
    for _ in 0..u64::MAX {
        let count = file.read_at(&mut piece, image.len() as u64)?;
        let came = &piece[..count];
        has_zero = has_zero || came.contains(&0);
        image.append(came)?;
        if count == 0 || has_zero && image.len() > least {
            return Ok(image);
        }
    }
    Err(OpenRefusal::Failed(ErrorKind::FileTooLarge.into()))
}
