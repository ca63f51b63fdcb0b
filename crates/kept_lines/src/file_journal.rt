ghost use Rattle.std.specs.Prelude.{◌≡◌, ◌⊎◌, ◌+◌, ◌<◌, All, true, length, IfOk, OnErr, OnOk, IsErrOf};
ghost use Rattle.bspl_io.specs.Faults.{HasCounted};
ghost use Rattle.kept_lines.specs.FileCalls.{Cut, FailsToStore, noted};
ghost use Rattle.kept_lines.specs.FileJournal.{AreRoom, FailsAtLines, FailsAtRoom, HasNoOffset};
ghost use Rattle.kept_lines.specs.FileJournal.{IsBegunFile, KeepsInFile};
ghost use Rattle.kept_lines.specs.FileJournal.{with_lines, with_lines_over_zeros, with_room};

use super::journal::Journal;
use super::line_file::{LineFile, store};
use super::open_refusal::OpenRefusal;
use super::text::text_len;
use bspl_io::Trouble;
use list_base::NoMemory;
use std::alloc::Global;
use std::fs::File;
use std::io::{self, ErrorKind};
use std::marker::Model;

/// How many zeros are written at once behind the room.
const ROOM: usize = 8_388_608;

/// A journal in a file, which holds a head, then lines, then zeros. Lines are written over zeros,
/// so the file's size changes only once in 8 MiB, and the first 0 tells how far a crash let them
/// come.
///
/// No contract sees what is in the file, so `kept` is not known. What is proved is what was asked
/// of the file, and when it counts: see `keep`. What a file then holds is trusted: that the system
/// does what its calls say; that a sync waits until the bytes are on the medium; and that after a
/// crash each byte that was written since the last sync is as it was written, or 0, or past the end
/// of the file, and every other byte stays. `crash_leaves_lines` says what that leaves. It is
/// trusted too that nobody else writes to the file: the lock binds only those that ask for it.
#[derive(Drop)]
pub struct FileJournal<F: LineFile = File> {
    file: F,
    text_end: u64,
    room_end: u64,
    syncs: bool,
    broken: bool,
    faults: u64,
    zeros: Vec<u8>,
}

impl<F: LineFile> Model for FileJournal<F> {
    ghost use Rattle.kept_lines.specs.FileJournal.{AreRoom, FileState};

    ghost Value = { FileState };

    ghost view = { λ j. record {
      text_end = j.text_end;
      room_end = j.room_end;
      zeros = j.zeros.items;
      syncs = j.syncs;
      broken = j.broken;
      faults = j.faults;
      calls = F.calls j.file;
    } };

    ghost invariant = { λ j. AreRoom j.zeros.items };
}

impl<F: LineFile + Drop> FileJournal<F> {
    /// A journal in a file whose first bytes are its text. What is behind them is cut off, since it
    /// would count as text if it came back, and the file is synced.
    pub(crate) fn begin(
        alloc: Global,
        file: F,
        len: u64,
        syncs: bool,
    ) -> Result<FileJournal<F>, OpenRefusal>
        ensures { IfOk result (λ journal.
            IsBegunFile journal (noted (F.calls file) (Cut len true)) len syncs) }
    {
        let zeros = room(alloc)?;
        let mut file = file;
        file.cut(len)?;
        Ok(FileJournal {
            file,
            text_end: len,
            room_end: len,
            syncs,
            broken: false,
            faults: 0,
            zeros,
        })
    }
}

impl<F: LineFile> FileJournal<F> {
    /// Writes zeros behind the room, and syncs them if writes are to be synced.
    fn add_room(&mut self) -> io::Result<()>
        ensures ok { OnOk result (self.new ≡ with_room self.old) }
        ensures last { OnErr result
            (((18446744073709551615 < self.old.room_end + length self.old.zeros) ×
            (self.new.calls ≡ self.old.calls)) ⊎ FailsAtRoom self.old self.new) }
        ensures text_stays { OnErr result (self.new.text_end ≡ self.old.text_end) }
        ensures faults_stay { OnErr result (self.new.faults ≡ self.old.faults) }
    {
        let Some(room_end) = self.room_end.checked_add(self.zeros.len() as u64) else {
            return Err(ErrorKind::FileTooLarge.into());
        };
        store(&mut self.file, self.syncs, self.room_end, &self.zeros)?;
        self.room_end = room_end;
        Ok(())
    }

    /// Writes the lines behind the text, which then ends at the offset, and syncs them if writes are
    /// to be synced.
    fn add_lines(&mut self, lines: &[u8], text_end: u64) -> io::Result<()>
        requires { text_end ≡ self.old.text_end + length lines.now }
        ensures ok { OnOk result (self.new ≡ with_lines self.old lines.now) }
        ensures last { OnErr result
            (FailsToStore self.old.calls self.new.calls self.old.text_end lines.now) }
        ensures text_stays { OnErr result (self.new.text_end ≡ self.old.text_end) }
        ensures faults_stay { OnErr result (self.new.faults ≡ self.old.faults) }
    {
        store(&mut self.file, self.syncs, self.text_end, lines)?;
        self.text_end = text_end;
        self.room_end = self.room_end.max(text_end);
        Ok(())
    }

    /// Writes the lines, over zeros as far as there are any.
    fn add(&mut self, lines: &[u8]) -> io::Result<()>
        ensures ok { OnOk result (self.new ≡ with_lines_over_zeros self.old lines.now) }
        ensures last { OnErr result
            ((HasNoOffset self.old lines.now × (self.new.calls ≡ self.old.calls)) ⊎
            (FailsAtRoom self.old self.new ⊎ FailsAtLines self.old self.new lines.now)) }
        ensures text_stays { OnErr result (self.new.text_end ≡ self.old.text_end) }
        ensures faults_stay { OnErr result (self.new.faults ≡ self.old.faults) }
    {
        let Some(text_end) = self.text_end.checked_add(lines.len() as u64) else {
            return Err(ErrorKind::FileTooLarge.into());
        };
        if text_end > self.room_end {
            self.add_room()?;
        }
        self.add_lines(lines, text_end)
    }
}

/// The zeros that are written at once.
fn room(alloc: Global) -> Result<Vec<u8>, NoMemory>
    ensures { IfOk result (λ zeros. AreRoom zeros.items) }
{
    zeros(alloc, ROOM)
}

/// So many zeros.
#[tactic(auto, using(crate::proofs::ZeroLemmas::copies_of_zero))]
fn zeros(alloc: Global, count: usize) -> Result<Vec<u8>, NoMemory>
    ensures len { IfOk result (λ zeros. length zeros.items ≡ count) }
    ensures zeros { IfOk result (λ zeros. All (λ byte. byte ≡ 0) zeros.items) }
{
    Ok(vec![in alloc; 0; count]?)
}

impl<F: LineFile> Journal for FileJournal<F> {
    ghost use Rattle.std.specs.Prelude.{None};

    ghost kept = { λ _. None };

    ghost faults = { λ j. j.faults };

    /// Keeps the lines in the file. After `Ok` they were written behind the text, and synced if the
    /// journal syncs. An error is also the answer to bytes that are no lines: what comes behind a 0,
    /// or behind the last LF, would be lost.
    fn keep(&mut self, lines: &[u8]) -> Result<(), Trouble>
        ensures counted { IsErrOf result Trouble.Failed →
            HasCounted self.old.faults self.new.faults }
        ensures still { ¬ IsErrOf result Trouble.Failed → self.new.faults ≡ self.old.faults }
        ensures file { KeepsInFile self.old self.new lines.now result }
    {
        if self.broken || text_len(lines) < lines.len() {
            self.broken = true;
            self.faults = self.faults.saturating_add(1);
            return Err(Trouble::Failed);
        }
        let Ok(()) = self.add(lines) else {
            self.broken = true;
            self.faults = self.faults.saturating_add(1);
            return Err(Trouble::Failed);
        };
        Ok(())
    }
}
