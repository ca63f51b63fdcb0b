ghost use Rattle.std.specs.Prelude.{◌≡◌, OnErr, OnOk, IsErrOf};
ghost use Rattle.std.specs.Io.KnownBytes.{Appends, Keeps};
ghost use Rattle.bspl_io.specs.Faults.{HasCounted};

use bspl_io::Trouble;

/// Keeps lines: once it has answered `Ok`, every crash leaves them.
///
/// A journal may be a file. Then it rests on this: after a crash each byte that was written since
/// the last sync is as it was written, or 0, or past the end of the file, and every other byte
/// stays. `crash_leaves_lines` says what that leaves of lines.
pub trait Journal {
    ghost use Rattle.std.specs.Prelude.{Option, List, ℕ};

    // The lines that every crash leaves, if they are known.
    ghost kept: { Self → Option (List ℕ) };

    // How often keeping failed. A counter may stay at its last value.
    ghost faults: { Self → ℕ };

    /// Keeps all of the lines. After an error a crash may leave some of them, or none.
    fn keep(&mut self, lines: &[u8]) -> Result<(), Trouble>
        ensures ok { OnOk result (Appends (kept self.old) (kept self.new) lines.now) }
        ensures err { OnErr result (Keeps (kept self.old) (kept self.new)) }
        ensures counted { IsErrOf result Trouble.Failed →
            HasCounted (faults self.old) (faults self.new) }
        ensures still { ¬ IsErrOf result Trouble.Failed → faults self.new ≡ faults self.old };
}
