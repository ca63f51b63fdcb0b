ghost use Rattle.std.specs.Prelude.{◌≡◌, OnErr, OnOk, is_ok};
ghost use Rattle.kept_lines.specs.FileCalls.{Cut, FailsToStore, Sync, Write, noted, stored};

use std::fs::File;
use std::io;
use std::os::unix::fs::FileExt;

/// A file as a journal uses it. Contracts cannot say what is in a file of the system, nor what was
/// asked of it. So a journal is proved over every file whose calls are known, and over those of the
/// system, of which none are.
pub trait LineFile {
    ghost use Rattle.std.specs.Prelude.{Option, List};
    ghost use Rattle.kept_lines.specs.FileCalls.{FileCall};

    // The calls so far, the newest first, if they are known.
    ghost calls: { Self → Option (List FileCall) };

    /// Cuts the file off at the offset, and syncs it.
    fn cut(&mut self, len: u64) -> io::Result<()>
        ensures { calls self.new ≡ noted (calls self.old) (Cut len (is_ok result)) };

    /// Writes the bytes at the offset, all of them if it answers `Ok`.
    fn write(&mut self, at: u64, bytes: &[u8]) -> io::Result<()>
        ensures { calls self.new ≡ noted (calls self.old) (Write at bytes.now (is_ok result)) };

    /// Waits until all that was written is on the medium.
    fn sync(&mut self) -> io::Result<()>
        ensures { calls self.new ≡ noted (calls self.old) (Sync (is_ok result)) };
}

impl LineFile for File {
    ghost use Rattle.std.specs.Prelude.{None};

    ghost calls = { λ _. None };

    fn cut(&mut self, len: u64) -> io::Result<()> {
        self.set_len(len)?;
        self.sync_all()
    }

    fn write(&mut self, at: u64, bytes: &[u8]) -> io::Result<()> {
        self.write_all_at(bytes, at)
    }

    fn sync(&mut self) -> io::Result<()> {
        self.sync_data()
    }
}

/// Writes the bytes at the offset, and syncs them if they are to be.
pub(crate) fn store<F: LineFile>(file: &mut F, syncs: bool, at: u64, bytes: &[u8]) -> io::Result<()>
    ensures ok { OnOk result (F.calls file.new ≡ stored (F.calls file.old) syncs at bytes.now) }
    ensures err { OnErr result (FailsToStore (F.calls file.old) (F.calls file.new) at bytes.now) }
{
    file.write(at, bytes)?;
    if syncs {
        file.sync()?;
    }
    Ok(())
}
