ghost use Rattle.std.specs.Prelude.{◌≡◌, ◌+◌, ◌≤◌, length, replicate, IfOk, OnErr, OnOk};
ghost use Rattle.std.specs.List.{All};
ghost use Rattle.role_journal.specs.declared.recording.Call.TheVariants.{Sync, Write};
ghost use Rattle.role_journal.specs.Image.{HasBytes};
ghost use Rattle.role_journal.specs.Recording.{blank_record, content_of, filled, patched};
ghost use Rattle.role_journal.specs.Recording.{restarted, unsettled, with_call};
ghost use Rattle.role_journal.specs.inner.Steps.{IsSync, IsWithin, IsWrite, RecordStays, Restarts};

use list_base::{Bytes, NoMemory, Seq};
use std::alloc::Global;
use std::marker::Model;

/// A call that was to change a disk, and whether it succeeded.
#[derive(Drop)]
pub enum Call {
    /// Bytes were to be written from the offset on.
    Write { at: u64, bytes: Bytes, done: bool },
    /// What was written was to be settled.
    Sync { done: bool },
}

/// What a disk in memory holds, with the calls that led to it. Contracts see the calls alone: what
/// a read gives, and what a crash may leave, follows from them.
#[derive(Drop)]
pub struct Recording {
    alloc: Global,
    content: Vec<u8>,
    base: Vec<u8>,
    calls: Seq<Call>,
}

impl Model for Recording {
    ghost use Rattle.std.specs.Prelude.{◌≡◌, length};
    ghost use Rattle.std.specs.List.{All};
    ghost use Rattle.role_journal.specs.Recording.{Record, content_of};
    ghost use Rattle.role_journal.specs.inner.Steps.{IsWithin};

    ghost Value = { Record };

    ghost view = { λ r. record { base = r.base.items; calls = r.calls } };

    ghost invariant = { λ r.
        (r.content.items ≡ (content_of (record { base = r.base.items; calls = r.calls })).seen) ×
        (length r.content.items ≡ length r.base.items) ×
        All (IsWithin (length r.base.items)) r.calls };
}

impl Recording {
    /// A disk of so many zeros, all of them settled.
    pub fn new(alloc: Global, size: u64) -> Result<Recording, NoMemory>
        ensures { IfOk result (λ r. r ≡ blank_record size) }
    {
        let size = size as usize;
        Ok(Recording {
            alloc,
            content: vec![in alloc; 0; size]?,
            base: vec![in alloc; 0; size]?,
            calls: Seq::new(alloc),
        })
    }

    /// How many bytes there are.
    pub fn size(&self) -> u64
        ensures { result ≡ length (content_of self.now).seen }
    {
        self.content.len() as u64
    }

    /// Reads the bytes from the offset on.
    pub fn read(&self, at: u64, into: &mut [u8])
        requires { at + length into.old ≤ length (content_of self.now).seen }
        ensures bytes { HasBytes (content_of self.now).seen at into.new }
        ensures facts { RecordStays self.now self.now }
    {
        let remaining = &self.content[at as usize..];
        into.copy_from_slice(&remaining[..into.len()]);
    }

    /// Records a write, and does it if it succeeds.
    pub fn write(&mut self, at: u64, bytes: &[u8], done: bool) -> Result<(), NoMemory>
        requires { at + length bytes.now ≤ length (content_of self.old).seen }
        ensures ok { OnOk result (self.new ≡ with_call self.old (Write at bytes.now done)) }
        ensures facts { OnOk result (IsWrite self.old self.new at bytes.now done) }
        ensures err { OnErr result (self.new ≡ self.old) }
    {
        let copy = Bytes::from_slice(self.alloc, bytes)?;
        self.calls.push(Call::Write {
            at,
            bytes: copy,
            done,
        })?;
        if done {
            patch(&mut self.content, at, bytes);
        }
        Ok(())
    }

    /// Records a sync.
    pub fn sync(&mut self, done: bool) -> Result<(), NoMemory>
        ensures ok { OnOk result (self.new ≡ with_call self.old (Sync done)) }
        ensures facts { OnOk result (IsSync self.old self.new done) }
        ensures err { OnErr result (self.new ≡ self.old) }
    {
        self.calls.push(Call::Sync { done })?;
        Ok(())
    }

    /// Starts again without calls: what was not settled is filled with the byte.
    pub fn restart(&mut self, byte: u8)
        ensures new { self.new ≡ restarted self.old byte }
        ensures facts { Restarts self.old self.new }
    {
        self.forget(byte);
    }

    /// Forgets the calls, and fills what they left unsettled with the byte.
    fn forget(&mut self, byte: u8)
        ensures { self.new ≡ restarted self.old byte }
    {
        fill_unsettled(&mut self.content, self.calls.as_slice(), byte);
        self.base.copy_from_slice(&self.content);
        self.calls = Seq::new(self.alloc);
    }
}

/// Puts the bytes into the content, from the offset on.
fn patch(content: &mut [u8], at: u64, bytes: &[u8])
    requires { at + length bytes.now ≤ length content.old }
    ensures { content.new ≡ patched content.old at bytes.now }
{
    let from = at as usize;
    content[from..from + bytes.len()].copy_from_slice(bytes);
}

/// Puts the byte wherever one of the calls left the content unsettled.
fn fill_unsettled(content: &mut [u8], calls: &[Call], byte: u8)
    requires { All (IsWithin (length content.old)) calls.now }
    ensures { content.new ≡ filled content.old (unsettled calls.now) byte }
{
    let mut earlier = calls;
    while let Some((call, rest)) = earlier.split_last() {
        match call {
            Call::Write { at, bytes, .. } => fill(content, *at, bytes.len(), byte),
            Call::Sync { done: true } => return,
            Call::Sync { done: false } => {}
        }
        earlier = rest;
    }
}

/// Puts the byte in so many places, from the offset on.
fn fill(content: &mut [u8], at: u64, count: usize, byte: u8)
    requires { at + count ≤ length content.old }
    ensures { content.new ≡ patched content.old at (replicate count byte) }
{
    let from = at as usize;
    content[from..from + count].fill(byte);
}
