ghost use Rattle.std.specs.Prelude.{◌≡◌, ◌<◌, ◌≤◌, [], length, Some, IfOk, OnOk, OnErr};
ghost use Rattle.std.specs.Io.KnownBytes.{ReadConsumes, WriteAppends};
ghost use Rattle.bspl_io.specs.Faults.{HasCounted};
ghost use Rattle.bspl_io.specs.Schedule.{unstarted};
ghost use Rattle.bspl_io.specs.Memory.{GivesPiece, TakesPiece};
ghost use Rattle.bspl_io.specs.Sink.{IsFault};

use super::plain::{PlainSink, PlainSource};
use super::schedule::Schedule;
use super::sink::{Sink, Trouble};
use super::source::{Failed, Source};
use list_base::{Bytes, NumberList};
use std::alloc::Global;
use std::marker::Model;

/// A source in memory that hands out small pieces, and fails at the listed calls.
#[derive(Drop)]
pub struct MemSource {
    source: PlainSource,
    schedule: Schedule,
}

impl Model for MemSource {
    ghost use Rattle.std.specs.Prelude.{◌<◌};
    ghost use Rattle.bspl_io.specs.Memory.{Supply};

    ghost Value = { Supply };

    ghost view = { λ s. record { remaining = s.source; schedule = s.schedule } };

    ghost invariant = { λ s. 0 < s.schedule.piece };
}

impl MemSource {
    /// Hands out at most `piece` bytes a call. The calls whose numbers, from 1, `fails` lists fail.
    pub fn new(bytes: Bytes, piece: usize, fails: NumberList) -> MemSource
        requires { 0 < piece }
        ensures { result ≡ record { remaining = bytes; schedule = unstarted piece fails } }
    {
        MemSource {
            source: PlainSource::new(bytes),
            schedule: Schedule::new(piece, fails),
        }
    }
}

impl Source for MemSource {
    ghost use Rattle.std.specs.Prelude.{Some};

    ghost remaining = { λ s. Some s.remaining };

    ghost faults = { λ s. s.schedule.faults };

    fn read(&mut self, into: &mut [u8]) -> Result<usize, Failed>
        ensures bound { IfOk result (λ n. n ≤ length into.new) }
        ensures bytes { ReadConsumes (Some self.old.remaining) (Some self.new.remaining)
            result into.new }
        ensures counted { OnErr result
            (HasCounted self.old.schedule.faults self.new.schedule.faults) }
        ensures still { OnOk result (self.new.schedule.faults ≡ self.old.schedule.faults) }
        ensures piece { GivesPiece self.old self.new (length into.old) result }
    {
        self.schedule.call()?;
        Ok(self.source.give(self.schedule.piece, into))
    }
}

/// A sink in memory that takes small pieces, and fails at the listed calls.
#[derive(Drop)]
pub struct MemSink {
    sink: PlainSink,
    schedule: Schedule,
}

impl Model for MemSink {
    ghost use Rattle.std.specs.Prelude.{◌<◌};
    ghost use Rattle.bspl_io.specs.Memory.{Intake};

    ghost Value = { Intake };

    ghost view = { λ s. record { contents = s.sink; schedule = s.schedule } };

    ghost invariant = { λ s. 0 < s.schedule.piece };
}

impl MemSink {
    /// Takes at most `piece` bytes a call. The calls whose numbers, from 1, `fails` lists fail.
    pub fn new(alloc: Global, piece: usize, fails: NumberList) -> MemSink
        requires { 0 < piece }
        ensures { result ≡ record { contents = []; schedule = unstarted piece fails } }
    {
        MemSink {
            sink: PlainSink::new(alloc),
            schedule: Schedule::new(piece, fails),
        }
    }

    /// Lends the bytes that were written.
    pub fn written(&self) -> &[u8]
        ensures { result.now ≡ self.now.contents }
    {
        self.sink.written()
    }
}

impl Sink for MemSink {
    ghost use Rattle.std.specs.Prelude.{Some};

    ghost contents = { λ s. Some s.contents };

    ghost faults = { λ s. s.schedule.faults };

    fn write(&mut self, piece: &[u8]) -> Result<usize, Trouble>
        ensures bound { IfOk result (λ n. n ≤ length piece.now) }
        ensures bytes { WriteAppends (Some self.old.contents) (Some self.new.contents)
            result piece.now }
        ensures counted { IsFault result piece.now →
            HasCounted self.old.schedule.faults self.new.schedule.faults }
        ensures still { ¬ IsFault result piece.now →
            self.new.schedule.faults ≡ self.old.schedule.faults }
        ensures piece { TakesPiece self.old self.new (length piece.now) result }
    {
        self.schedule.call()?;
        Ok(self.sink.keep(self.schedule.piece, piece)?)
    }
}
