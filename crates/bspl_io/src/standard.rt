ghost use Rattle.std.specs.Prelude.{◌≡◌, ◌≤◌, length, IfOk, IsErrOf};
ghost use Rattle.std.specs.Io.KnownBytes.{WriteAppends};
ghost use Rattle.bspl_io.specs.Faults.{HasCounted};
ghost use Rattle.bspl_io.specs.Sink.{IsFault};

use super::sink::{Sink, Trouble};
use super::source::{Failed, Source};
use std::io::{Read, Write};

/// A reader as a source, such as standard input. Its remaining bytes are those of the reader:
/// of standard input none are known. Each error of the reader counts as a fault.
#[derive(Drop)]
pub struct StdSource<R> {
    reader: R,
    faults: u64,
}

impl<R: Read> StdSource<R> {
    /// The reader as a source, without faults yet.
    pub fn new(reader: R) -> StdSource<R>
        ensures remaining { ⟦<StdSource<R> as Source>⟧.remaining result ≡ R.remaining reader }
        ensures faults { ⟦<StdSource<R> as Source>⟧.faults result ≡ 0 }
    {
        StdSource { reader, faults: 0 }
    }
}

impl<R: Read> Source for StdSource<R> {
    ghost remaining = { λ s. R.remaining s.reader };

    ghost faults = { λ s. s.faults };

    fn read(&mut self, into: &mut [u8]) -> Result<usize, Failed> {
        match self.reader.read(into) {
            Ok(n) => Ok(n),
            Err(_) => {
                self.faults = self.faults.saturating_add(1);
                Err(Failed)
            }
        }
    }
}

/// A writer that keeps nothing back as a sink, such as standard output. Its contents are those of
/// the writer: of standard output none are known. Each error of the writer counts as a fault, and
/// so does the answer that nothing was taken.
#[derive(Drop)]
pub struct StdSink<W> {
    writer: W,
    faults: u64,
}

impl<W: Write> StdSink<W> {
    /// The writer as a sink, without faults yet.
    pub fn new(writer: W) -> StdSink<W>
        ensures contents { ⟦<StdSink<W> as Sink>⟧.contents result ≡ W.contents writer }
        ensures faults { ⟦<StdSink<W> as Sink>⟧.faults result ≡ 0 }
    {
        StdSink { writer, faults: 0 }
    }
}

impl<W: Write> Sink for StdSink<W> {
    ghost contents = { λ s. W.contents s.writer };

    ghost faults = { λ s. s.faults };

    fn write(&mut self, piece: &[u8]) -> Result<usize, Trouble>
        ensures bound { IfOk result (λ n. n ≤ length piece.now) }
        ensures bytes { WriteAppends (W.contents self.old.writer) (W.contents self.new.writer)
            result piece.now }
        ensures counted { IsFault result piece.now → HasCounted self.old.faults self.new.faults }
        ensures still { ¬ IsFault result piece.now → self.new.faults ≡ self.old.faults }
        ensures memory { ¬ IsErrOf result Trouble.NoMemory }
    {
        if piece.is_empty() {
            return Ok(0);
        }
        match self.writer.write(piece) {
            Ok(n) if n > 0 => Ok(n),
            _ => {
                self.faults = self.faults.saturating_add(1);
                Err(Trouble::Failed)
            }
        }
    }
}
