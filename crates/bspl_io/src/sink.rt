ghost use Rattle.std.specs.Prelude.{◌≡◌, ◌≤◌, length, IfOk, OnOk, OnErr, IsErrOf};
ghost use Rattle.std.specs.Io.KnownBytes.{Appends, WriteAppends};
ghost use Rattle.bspl_io.specs.Faults.{HasCounted};
ghost use Rattle.bspl_io.specs.Sink.{AppendsPrefix, IsFault};

use super::source::Failed;
use list_base::NoMemory;

/// Why a piece was not written. Nothing of it was.
#[derive(Clone, Copy, Debug, PartialEq, Eq)]
pub enum Trouble {
    /// Writing failed, and was counted.
    Failed,
    /// Memory ran out.
    NoMemory,
}

impl From<Failed> for Trouble {
    ghost use Rattle.std.specs.Prelude.{◌≡◌};
    ghost use Rattle.bspl_io.specs.declared.sink.Trouble.TheVariants.{Failed};

    ghost from_gives = { λ _ trouble. trouble ≡ Failed };

    fn from(_failed: Failed) -> Trouble {
        Trouble::Failed
    }
}

impl From<NoMemory> for Trouble {
    ghost use Rattle.std.specs.Prelude.{◌≡◌};
    ghost use Rattle.bspl_io.specs.declared.sink.Trouble.TheVariants.{NoMemory};

    ghost from_gives = { λ _ trouble. trouble ≡ NoMemory };

    fn from(_error: NoMemory) -> Trouble {
        Trouble::NoMemory
    }
}

/// Why a text was not written whole. A prefix of it was.
#[derive(Clone, Copy, Debug, PartialEq, Eq)]
pub enum WriteRefusal {
    /// Writing failed, and was counted.
    WriteFault,
    /// Memory ran out.
    NoMemory,
}

impl From<Trouble> for WriteRefusal {
    ghost use Rattle.std.specs.Prelude.{◌≡◌};
    ghost use Rattle.bspl_io.specs.Refusal.{write_refusal};

    ghost from_gives = { λ trouble refusal. refusal ≡ write_refusal trouble };

    fn from(trouble: Trouble) -> WriteRefusal {
        match trouble {
            Trouble::Failed => WriteRefusal::WriteFault,
            Trouble::NoMemory => WriteRefusal::NoMemory,
        }
    }
}

/// Takes bytes, and keeps them in order.
pub trait Sink {
    ghost use Rattle.std.specs.Prelude.{Option, List, ℕ};

    // The bytes that were written, if they are known.
    ghost contents: { Self → Option (List ℕ) };

    // How often writing failed. A counter may stay at its last value.
    ghost faults: { Self → ℕ };

    /// Appends the first bytes of the piece, and says how many.
    fn write(&mut self, piece: &[u8]) -> Result<usize, Trouble>
        ensures bound { IfOk result (λ n. n ≤ length piece.now) }
        ensures bytes { WriteAppends (contents self.old) (contents self.new) result piece.now }
        ensures counted { IsFault result piece.now →
            HasCounted (faults self.old) (faults self.new) }
        ensures still { ¬ IsFault result piece.now → faults self.new ≡ faults self.old };
}

/// Writes the whole text, piece by piece.
pub fn write_all<W: Sink>(sink: &mut W, bytes: &[u8]) -> Result<(), WriteRefusal>
    ensures ok { OnOk result (Appends (W.contents sink.old) (W.contents sink.new) bytes.now) }
    ensures err { OnErr result
        (AppendsPrefix (W.contents sink.old) (W.contents sink.new) bytes.now) }
    ensures counted { IsErrOf result WriteRefusal.WriteFault →
        HasCounted (W.faults sink.old) (W.faults sink.new) }
    ensures still { ¬ IsErrOf result WriteRefusal.WriteFault →
        W.faults sink.new ≡ W.faults sink.old }
{
    let mut done = 0;
    while done < bytes.len() {
        let n = sink.write(&bytes[done..])?;
        if n == 0 {
            return Err(WriteRefusal::WriteFault);
        }
        done += n;
    }
    Ok(())
}
