ghost use Rattle.std.specs.Prelude.{◌≡◌, IfOk};
ghost use Rattle.role_journal.specs.Recording.{blank_record};

use super::disk::Disk;
use super::recording::Recording;
use bspl_io::{Failed, Trouble};
use list_base::NoMemory;
use std::alloc::Global;
use std::marker::Model;

/// A disk in memory that never fails. Contracts see its recorded calls.
#[derive(Drop)]
pub struct MemDisk {
    recording: Recording,
}

impl Model for MemDisk {
    ghost use Rattle.role_journal.specs.Recording.{Record};

    ghost Value = { Record };

    ghost view = { λ d. d.recording };
}

impl MemDisk {
    /// A disk of so many zeros, all of them synced.
    pub fn new(alloc: Global, size: u64) -> Result<MemDisk, NoMemory>
        ensures { IfOk result (λ d. d ≡ blank_record size) }
    {
        Ok(MemDisk {
            recording: Recording::new(alloc, size)?,
        })
    }
}

impl Disk for MemDisk {
    ghost use Rattle.std.specs.Prelude.{length, refl};
    ghost use Rattle.role_journal.specs.Counts.{no_faults};
    ghost use Rattle.role_journal.specs.Recording.{Suits, SuitsSince, content_of};
    ghost use Rattle.role_journal.specs.RecordLaws.{only_present, seen_suits, suits_now};

    ghost seen = { λ r. (content_of r).seen };

    ghost may_leave = { Suits };

    ghost left_since = { SuitsSince };

    ghost clock = { λ r. length r.calls };

    ghost counts = { λ _. no_faults };

    ghost may_lack = { λ _. Unit {0} };

    ghost leaves_seen = { seen_suits };

    ghost counts_now = { suits_now };

    ghost only_now = { only_present };

    ghost calm = { λ _ _. refl };

    fn size(&self) -> u64 {
        self.recording.size()
    }

    fn read(&mut self, at: u64, into: &mut [u8]) -> Result<(), Failed> {
        self.recording.read(at, into);
        Ok(())
    }

    fn write(&mut self, at: u64, bytes: &[u8]) -> Result<(), Trouble> {
        Ok(self.recording.write(at, bytes, true)?)
    }

    fn sync(&mut self) -> Result<(), Trouble> {
        Ok(self.recording.sync(true)?)
    }

    fn restart(&mut self) {
        self.recording.restart(0);
    }
}
