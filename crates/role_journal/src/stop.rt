ghost use Rattle.std.specs.Prelude.{◌≡◌, ◌+◌, ◌<◌, ◌≤◌, length, true, nat_lt, IfOk, IsErr};
ghost use Rattle.std.specs.Prelude.{IsErrOf, IsTrue, OnErr, OnOk, ◌↔◌};
ghost use Rattle.bspl_io.specs.Faults.{last_count};
ghost use Rattle.role_journal.specs.declared.recording.Call.TheVariants.{Sync, Write};
ghost use Rattle.role_journal.specs.Counts.{HasOutcome, after_fault, after_restart};
ghost use Rattle.role_journal.specs.Crash.{Leaves, LeavesTorn, TimePasses};
ghost use Rattle.role_journal.specs.Image.{HasBytes, IsTorn};
ghost use Rattle.role_journal.specs.Recording.{Suits, SuitsSince, content_of, restarted, with_call};
ghost use Rattle.role_journal.specs.Stop.{IsStopCall, StopStays, counted, counts_of, is_stopped};
ghost use Rattle.role_journal.specs.Stop.{unstopped};

use super::disk::Disk;
use super::recording::Recording;
use bspl_io::{Failed, Trouble};
use list_base::NoMemory;
use std::alloc::Global;
use std::marker::Model;

/// A disk in memory that stops at a call, and fails until it is restarted. Contracts see its
/// recorded calls and its counters.
#[derive(Drop)]
pub struct StopDisk {
    recording: Recording,
    stop: u64,
    fill: u8,
    made: u64,
    faults: u64,
    lifted: bool,
}

impl Model for StopDisk {
    ghost use Rattle.role_journal.specs.Stop.{StopState};

    ghost Value = { StopState };

    ghost view = { λ d. record {
      recording = d.recording;
      stop = d.stop;
      fill = d.fill;
      made = d.made;
      faults = d.faults;
      lifted = d.lifted;
    } };
}

impl StopDisk {
    /// A disk of so many zeros, all of them synced. Call `stop`, counted from 1, fails, and so does
    /// each later one until a restart. A restart leaves the byte `fill` where nothing was synced.
    pub fn new(alloc: Global, size: u64, stop: u64, fill: u8) -> Result<StopDisk, NoMemory>
        requires { 1 ≤ stop }
        ensures { IfOk result (λ d. d ≡ unstopped size stop fill) }
    {
        Ok(StopDisk {
            recording: Recording::new(alloc, size)?,
            stop,
            fill,
            made: 0,
            faults: 0,
            lifted: false,
        })
    }

    /// Whether the next call fails.
    fn is_stopped(&self) -> bool
        ensures { result ≡ is_stopped self.now }
    {
        !self.lifted && self.stop <= self.made.saturating_add(1)
    }

    /// Counts a call, which failed or did not.
    fn count(&mut self, fails: bool) -> Result<(), Failed>
        requires { self.old.faults < last_count }
        ensures failed { IsErr result ↔ IsTrue fails }
        ensures counted { self.new ≡ counted self.old fails }
    {
        self.made = self.made.saturating_add(1);
        if fails {
            self.faults += 1;
            return Err(Failed);
        }
        Ok(())
    }
}

impl Disk for StopDisk {
    ghost use Rattle.std.specs.Prelude.{length};
    ghost use Rattle.role_journal.specs.Recording.{Suits, SuitsSince, content_of};
    ghost use Rattle.role_journal.specs.RecordLaws.{only_present, seen_suits, suits_now};
    ghost use Rattle.role_journal.specs.Stop.{calm_counts, counts_of};

    ghost seen = { λ d. (content_of d.recording).seen };

    ghost may_leave = { λ d image. Suits d.recording image };

    ghost left_since = { λ d from image. SuitsSince d.recording from image };

    ghost clock = { λ d. length d.recording.calls };

    ghost counts = { counts_of };

    ghost may_lack = { λ _. Unit {0} };

    ghost leaves_seen = { λ d. seen_suits d.recording };

    ghost counts_now = { λ d from image late suits. suits_now d.recording from image late suits };

    ghost only_now = { λ d image since. only_present d.recording image since };

    ghost calm = { calm_counts };

    fn size(&self) -> u64 {
        self.recording.size()
    }

    fn read(&mut self, at: u64, into: &mut [u8]) -> Result<(), Failed>
        requires within { at + length into.old ≤
            length (content_of self.old.recording).seen }
        requires countable { self.old.faults < last_count }
        ensures bytes { OnOk result (HasBytes (content_of self.old.recording).seen at into.new) }
        ensures stays { StopStays self.old self.new }
        ensures failed { OnErr result (counts_of self.new ≡ after_fault (counts_of self.old)) }
        ensures still { OnOk result (counts_of self.new ≡ counts_of self.old) }
        ensures stop { IsErr result ↔ IsTrue (is_stopped self.old) }
        ensures call { self.new ≡ counted self.old (is_stopped self.old) }
    {
        let fails = self.is_stopped();
        if !fails {
            self.recording.read(at, into);
        }
        self.count(fails)
    }

    fn write(&mut self, at: u64, bytes: &[u8]) -> Result<(), Trouble>
        requires within { at + length bytes.now ≤
            length (content_of self.old.recording).seen }
        requires countable { self.old.faults < last_count }
        ensures bytes { OnOk result (HasBytes (content_of self.new.recording).seen at bytes.now) }
        ensures others { IsTorn at (length bytes.now) (content_of self.old.recording).seen
            (content_of self.new.recording).seen }
        ensures crash { LeavesTorn at (length bytes.now) (Suits self.old.recording)
            (Suits self.new.recording) }
        ensures time { TimePasses (length self.old.recording.calls)
            (length self.new.recording.calls) (SuitsSince self.old.recording)
            (SuitsSince self.new.recording) (Suits self.new.recording) }
        ensures outcome { HasOutcome counts_of result self.old self.new }
        ensures memory { IsErrOf result Trouble.NoMemory → Unit {0} }
        ensures call { IsStopCall (λ done. with_call self.old.recording (Write at bytes.now done))
            result self.old self.new }
    {
        let fails = self.is_stopped();
        self.recording.write(at, bytes, !fails)?;
        Ok(self.count(fails)?)
    }

    fn sync(&mut self) -> Result<(), Trouble>
        requires countable { self.old.faults < last_count }
        ensures durable { OnOk result (Leaves (content_of self.new.recording).seen
            (Suits self.new.recording)) }
        ensures stays { StopStays self.old self.new }
        ensures outcome { HasOutcome counts_of result self.old self.new }
        ensures memory { IsErrOf result Trouble.NoMemory → Unit {0} }
        ensures call { IsStopCall (λ done. with_call self.old.recording (Sync done))
            result self.old self.new }
    {
        let fails = self.is_stopped();
        self.recording.sync(!fails)?;
        Ok(self.count(fails)?)
    }

    fn restart(&mut self)
        ensures image { Suits self.old.recording (content_of self.new.recording).seen }
        ensures size { length (content_of self.new.recording).seen ≡
            length (content_of self.old.recording).seen }
        ensures settled { Leaves (content_of self.new.recording).seen (Suits self.new.recording) }
        ensures clock { length self.new.recording.calls ≡ 0 }
        ensures counts { counts_of self.new ≡ after_restart (counts_of self.old) }
        ensures lifted { self.new ≡ record self.old {
          recording = restarted self.old.recording self.old.fill;
          lifted = nat_lt 0 self.old.faults;
        } }
    {
        self.recording.restart(self.fill);
        self.lifted = self.faults > 0;
    }
}
