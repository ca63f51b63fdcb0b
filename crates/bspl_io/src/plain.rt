ghost use Rattle.std.specs.Prelude.{◌≡◌, ◌≤◌, [], ◌++◌, min, length, take, drop, Some, Ok, IfOk, OnErr, IsOkUnless};
ghost use Rattle.std.specs.Io.KnownBytes.{ReadConsumes, WriteAppends};

use super::sink::{Sink, Trouble};
use super::source::{Failed, Source};
use list_base::{Bytes, NoMemory};
use std::alloc::Global;
use std::marker::Model;

/// A source in memory that never fails. Contracts see the bytes that are remaining.
#[derive(Drop)]
pub struct PlainSource {
    bytes: Bytes,
    given: usize,
}

impl Model for PlainSource {
    ghost use Rattle.std.specs.Prelude.{List, ℕ, ◌≤◌, length, drop};

    ghost Value = { List ℕ };

    ghost view = { λ s. drop s.given s.bytes };

    ghost invariant = { λ s. s.given ≤ length s.bytes };
}

impl PlainSource {
    /// A source of these bytes.
    pub fn new(bytes: Bytes) -> PlainSource
        ensures { result ≡ bytes }
    {
        PlainSource { bytes, given: 0 }
    }

    /// Hands out at most `piece` bytes, and else as many as fit.
    pub(crate) fn give(&mut self, piece: usize, into: &mut [u8]) -> usize
        ensures count { result ≡ min piece (min (length into.old) (length self.old)) }
        ensures given { take result into.new ≡ take result self.old }
        ensures remaining { self.new ≡ drop result self.old }
    {
        let remaining = &self.bytes.as_slice()[self.given..];
        let n = piece.min(into.len().min(remaining.len()));
        into[..n].copy_from_slice(&remaining[..n]);
        self.given += n;
        n
    }
}

impl Source for PlainSource {
    ghost use Rattle.std.specs.Prelude.{Some};

    ghost remaining = { λ bytes. Some bytes };

    ghost faults = { λ _. 0 };

    fn read(&mut self, into: &mut [u8]) -> Result<usize, Failed>
        ensures bound { IfOk result (λ n. n ≤ length into.new) }
        ensures bytes { ReadConsumes (Some self.old) (Some self.new) result into.new }
        ensures full { result ≡ Ok (min (length into.old) (length self.old)) }
    {
        Ok(self.give(into.len(), into))
    }
}

/// A sink in memory that never fails. Contracts see the bytes that were written.
#[derive(Drop)]
pub struct PlainSink {
    bytes: Bytes,
}

impl Model for PlainSink {
    ghost use Rattle.std.specs.Prelude.{List, ℕ};

    ghost Value = { List ℕ };

    ghost view = { λ s. s.bytes };
}

impl PlainSink {
    /// A sink without bytes yet.
    pub fn new(alloc: Global) -> PlainSink
        ensures { result ≡ [] }
    {
        PlainSink {
            bytes: Bytes::new(alloc),
        }
    }

    /// Lends the bytes that were written.
    pub fn written(&self) -> &[u8]
        ensures { result.now ≡ self.now }
    {
        self.bytes.as_slice()
    }

    /// Appends at most `most` bytes of the piece, and else all of it.
    pub(crate) fn keep(&mut self, most: usize, piece: &[u8]) -> Result<usize, NoMemory>
        ensures ok { IfOk result (λ n. self.new ≡ self.old ++ take n piece.now) }
        ensures count { IfOk result (λ n. n ≡ min most (length piece.now)) }
        ensures err { OnErr result (self.new ≡ self.old) }
    {
        let n = most.min(piece.len());
        self.bytes.append(&piece[..n])?;
        Ok(n)
    }
}

impl Sink for PlainSink {
    ghost use Rattle.std.specs.Prelude.{Some};

    ghost contents = { λ bytes. Some bytes };

    ghost faults = { λ _. 0 };

    fn write(&mut self, piece: &[u8]) -> Result<usize, Trouble>
        ensures bytes { WriteAppends (Some self.old) (Some self.new) result piece.now }
        ensures whole { IfOk result (λ n. n ≡ length piece.now) }
        ensures unless { IsOkUnless result Trouble.NoMemory }
    {
        Ok(self.keep(piece.len(), piece)?)
    }
}
