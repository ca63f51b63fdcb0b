ghost use Rattle.std.specs.Prelude.{◌≡◌, ◌<◌, ◌≤◌, ◌↔◌, length, IfOk, OnOk, OnErr, IsErrOf};
ghost use Rattle.std.specs.Io.KnownBytes.{ReadConsumes};
ghost use Rattle.bspl_io.specs.Faults.{HasCounted};
ghost use Rattle.bspl_io.specs.Source.{ReadsAll, Takes};

use list_base::{Bytes, NoMemory};
use std::alloc::Global;

/// Reading or writing failed, and the count of faults says so.
#[derive(Clone, Copy, Debug, PartialEq, Eq)]
pub struct Failed;

/// Why the text could not be read to its end.
#[derive(Clone, Copy, Debug, PartialEq, Eq)]
pub enum ReadRefusal {
    /// Reading failed, and was counted.
    ReadFault,
    /// More bytes than the limit came.
    TooLong,
    /// Memory ran out.
    NoMemory,
}

impl From<Failed> for ReadRefusal {
    ghost use Rattle.std.specs.Prelude.{◌≡◌};
    ghost use Rattle.bspl_io.specs.declared.source.ReadRefusal.TheVariants.{ReadFault};

    ghost from_gives = { λ _ refusal. refusal ≡ ReadFault };

    fn from(_failed: Failed) -> ReadRefusal {
        ReadRefusal::ReadFault
    }
}

impl From<NoMemory> for ReadRefusal {
    ghost use Rattle.std.specs.Prelude.{◌≡◌};
    ghost use Rattle.bspl_io.specs.declared.source.ReadRefusal.TheVariants.{NoMemory};

    ghost from_gives = { λ _ refusal. refusal ≡ NoMemory };

    fn from(_error: NoMemory) -> ReadRefusal {
        ReadRefusal::NoMemory
    }
}

/// Hands out bytes, from first to last.
pub trait Source {
    ghost use Rattle.std.specs.Prelude.{Option, List, ℕ};

    // The bytes that are still to be read, if they are known.
    ghost remaining: { Self → Option (List ℕ) };

    // How often reading failed. A counter may stay at its last value.
    ghost faults: { Self → ℕ };

    /// Hands out the next bytes. `Ok(0)` into a slice with room is the end of the input.
    fn read(&mut self, into: &mut [u8]) -> Result<usize, Failed>
        ensures bound { IfOk result (λ n. n ≤ length into.new) }
        ensures bytes { ReadConsumes (remaining self.old) (remaining self.new) result into.new }
        ensures counted { OnErr result (HasCounted (faults self.old) (faults self.new)) }
        ensures still { OnOk result (faults self.new ≡ faults self.old) };
}

/// The most bytes that one turn of `read_all` asks for.
const PIECE: usize = 4096;

/// Reads to the end of the input, unless more than `limit` bytes come.
pub fn read_all<R: Source>(alloc: Global, source: &mut R, limit: u64) -> Result<Bytes, ReadRefusal>
    ensures all { IfOk result (ReadsAll (R.remaining source.old) (R.remaining source.new) limit) }
    ensures taken { Takes (R.remaining source.old) (R.remaining source.new)
        (λ bytes. IsErrOf result ReadRefusal.TooLong ↔ (limit < length bytes)) }
    ensures counted { IsErrOf result ReadRefusal.ReadFault →
        HasCounted (R.faults source.old) (R.faults source.new) }
    ensures still { ¬ IsErrOf result ReadRefusal.ReadFault →
        R.faults source.new ≡ R.faults source.old }
{
    let mut text = Bytes::new(alloc);
    let mut piece = [0u8; PIECE];
    loop {
        let n = source.read(&mut piece)?;
        if n == 0 {
            return Ok(text);
        }
        if n as u64 > limit - text.len() as u64 {
            return Err(ReadRefusal::TooLong);
        }
        text.append(&piece[..n])?;
    }
}
