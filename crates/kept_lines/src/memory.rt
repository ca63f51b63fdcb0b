ghost use Rattle.std.specs.Prelude.{◌≡◌, ◌++◌, replicate, IfOk, OnErr, OnOk, IsErrOf};
ghost use Rattle.std.specs.Io.KnownBytes.{Appends, Keeps};
ghost use Rattle.bspl_io.specs.Faults.{HasCounted};
ghost use Rattle.kept_lines.specs.CrashImage.{IsCrashImage};
ghost use Rattle.kept_lines.specs.Memory.{KeepsOrBegins, half_left, unused};

use super::half_written::push_half_written;
use super::journal::Journal;
use super::laws::lines_join;
use super::text::text_len;
use bspl_io::Trouble;
use list_base::{Bytes, NoMemory};
use std::alloc::Global;
use std::marker::Model;

/// A journal in memory, for tests: it fails from a call on, and shows what crashes leave.
#[derive(Drop)]
pub struct MemJournal {
    kept: Bytes,
    begun: Bytes,
    calls: u64,
    faults: u64,
}

impl Model for MemJournal {
    ghost use Rattle.kept_lines.specs.Memory.{KeptLines};
    ghost use Rattle.kept_lines.specs.Text.{AreTextLines};

    ghost Value = { KeptLines };

    ghost view = { λ j. record {
      kept = j.kept;
      begun = j.begun;
      calls = j.calls;
      faults = j.faults;
    } };

    ghost invariant = { λ j. AreTextLines j.kept };
}

impl MemJournal {
    /// A journal without lines, which fails after so many calls.
    pub fn new(alloc: Global, calls: u64) -> MemJournal
        ensures { result ≡ unused calls }
    {
        MemJournal {
            kept: Bytes::new(alloc),
            begun: Bytes::new(alloc),
            calls,
            faults: 0,
        }
    }

    /// What a crash may leave: the lines that are kept, then the begun bytes that are said to have
    /// reached the disk, with a 0 in place of each other one up to the last that is spoken of, and
    /// then so many zeros.
    pub fn crash_image(
        &self,
        alloc: Global,
        reached: &[bool],
        zeros: usize,
    ) -> Result<Bytes, NoMemory>
        ensures exact { IfOk result (λ image. image ≡
            self.now.kept ++ half_left self.now.begun reached.now ++ replicate zeros 0) }
        ensures crash { IfOk result (λ image. IsCrashImage self.now.kept self.now.begun image) }
    {
        let mut image = Bytes::from_slice(alloc, self.kept.as_slice())?;
        push_half_written(&mut image, self.begun.as_slice(), reached)?;
        image.append(&vec![in alloc; 0; zeros]?)?;
        Ok(image)
    }
}

impl Journal for MemJournal {
    ghost use Rattle.std.specs.Prelude.{Some};

    ghost kept = { λ j. Some j.kept };

    ghost faults = { λ j. j.faults };

    fn keep(&mut self, lines: &[u8]) -> Result<(), Trouble>
        ensures ok { OnOk result (Appends (Some self.old.kept) (Some self.new.kept) lines.now) }
        ensures err { OnErr result (Keeps (Some self.old.kept) (Some self.new.kept)) }
        ensures counted { IsErrOf result Trouble.Failed →
            HasCounted self.old.faults self.new.faults }
        ensures still { ¬ IsErrOf result Trouble.Failed → self.new.faults ≡ self.old.faults }
        ensures begun { KeepsOrBegins self.old self.new lines.now result }
    {
        if self.calls == 0 || text_len(lines) < lines.len() {
            self.begun.append(lines)?;
            self.calls = 0;
            self.faults = self.faults.saturating_add(1);
            return Err(Trouble::Failed);
        }
        // law: the lines that were kept and these are lines together
        lines_join();
        self.kept.append(lines)?;
        self.calls -= 1;
        Ok(())
    }
}
