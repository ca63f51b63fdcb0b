ghost use Rattle.std.specs.Prelude.{◌≡◌, ◌+◌, ◌<◌, ◌≤◌, length, slice_get, Some, OnOk, OnErr, IsOk};
ghost use Rattle.std.specs.Prelude.{[]};
ghost use Rattle.bspl_types.specs.declared.envelope.Envelope.{Envelope};
ghost use Rattle.std.specs.List.{count_by};
ghost use Rattle.reorder_net.specs.Inbox.{put_last, after_spending};
ghost use Rattle.reorder_net.specs.inner.Slots.{is_held};
ghost use Rattle.reorder_net.specs.inner.Counts.{AreCounts, IsHeldSlot};

use super::counts::{first_above, lower, raise, slot_after};
use bspl_types::Envelope;
use list_base::NoMemory;
use std::alloc::Global;
use std::marker::Model;

/// How many slots a block has, and how many blocks a group.
const WIDTH: usize = 32;

/// The envelopes that a role can take, in the order in which they came. Contracts see their list,
/// and beside it a number of puts for which there is room.
///
/// Each envelope stays in its slot, and a slot without copies is free. How many are held is counted
/// for blocks of slots and for groups of blocks, so an envelope is found by its index in some
/// hundred steps, and none moves when another leaves. The steps go over marks of one byte, and not
/// over envelopes, which are hundreds of bytes apart.
#[derive(Drop)]
pub struct Inbox {
    slots: Vec<Envelope>,
    marks: Vec<bool>,
    blocks: Vec<usize>,
    groups: Vec<usize>,
    all: usize,
    spare: usize,
}

impl Model for Inbox {
    ghost use Rattle.std.specs.Prelude.{vec_len, vec_capacity};
    ghost use Rattle.reorder_net.specs.Inbox.{Inbox as Held};
    ghost use Rattle.reorder_net.specs.inner.Slots.{held};
    ghost use Rattle.reorder_net.specs.inner.Counts.{AreTallied, HaveRoom};

    ghost Value = { Held };

    ghost view = { λ a. record { envelopes = held a.slots.items; spare = a.spare } };

    ghost invariant = { λ a. AreTallied a.slots.items a.marks.items a.blocks.items a.groups.items a.all
        × HaveRoom (vec_len a.slots) a.spare (vec_capacity a.slots) (vec_capacity a.marks)
        (vec_capacity a.blocks) (vec_capacity a.groups) };
}

impl Inbox {
    /// An empty inbox, which takes no memory yet.
    pub fn new(alloc: Global) -> Inbox
        ensures { result.envelopes ≡ [] }
    {
        Inbox {
            slots: Vec::new(alloc),
            marks: Vec::new(alloc),
            blocks: Vec::new(alloc),
            groups: Vec::new(alloc),
            all: 0,
            spare: 0,
        }
    }

    /// Where the inbox takes its memory.
    pub fn allocator(&self) -> Global {
        *self.slots.allocator()
    }

    /// Makes room for this number of puts, unless there is more.
    pub fn reserve(&mut self, n: usize) -> Result<(), NoMemory>
        ensures ok { OnOk result (n ≤ self.new.spare) }
        ensures same { self.new.envelopes ≡ self.old.envelopes }
        ensures kept { self.old.spare ≤ self.new.spare }
        ensures err { OnErr result (self.new ≡ self.old) }
    {
        if n <= self.spare {
            return Ok(());
        }
        self.slots.reserve(n)?;
        self.marks.reserve(n)?;
        self.blocks.reserve(n / WIDTH + 1)?;
        self.groups.reserve(n / WIDTH / WIDTH + 1)?;
        self.spare = n;
        Ok(())
    }

    /// Puts the envelope at the back, or drops it if it has no copies.
    pub fn put(&mut self, envelope: Envelope) -> Result<(), NoMemory>
        ensures ok { OnOk result
            (self.new.envelopes ≡ put_last self.old.envelopes envelope) }
        ensures room { 0 < self.old.spare → IsOk result }
        ensures spare { self.old.spare ≤ self.new.spare + 1 }
        ensures err { OnErr result (self.new ≡ self.old) }
    {
        if envelope.copies == 0 {
            return Ok(());
        }
        self.make_room()?;
        let block = self.slots.len() / WIDTH;
        raise(&mut self.blocks, block);
        raise(&mut self.groups, block / WIDTH);
        self.slots.push_reserved(envelope);
        self.marks.push_reserved(true);
        self.all += 1;
        self.spare -= 1;
        Ok(())
    }

    /// How many envelopes are held.
    pub fn len(&self) -> usize
        ensures { result ≡ length self.now.envelopes }
    {
        self.all
    }

    /// Lends the envelope at the index, from 0.
    pub fn at(&self, i: usize) -> &Envelope
        requires { i < length self.now.envelopes }
        ensures item { slice_get self.now.envelopes i ≡ Some result.now }
        ensures some { 0 < result.now.copies }
    {
        let slot = slot_of(&self.marks, &self.blocks, &self.groups, i);
        &self.slots[slot]
    }

    /// Takes one copy of the envelope at the index, and the envelope with its last copy.
    pub fn spend(&mut self, i: usize)
        requires { i < length self.old.envelopes }
        ensures list { (e : Envelope) → slice_get self.old.envelopes i ≡ Some e →
            self.new.envelopes ≡ after_spending self.old.envelopes i e }
        ensures spare { self.old.spare ≤ self.new.spare }
    {
        let slot = slot_of(&self.marks, &self.blocks, &self.groups, i);
        self.slots[slot].copies -= 1;
        if self.slots[slot].copies > 0 {
            return;
        }
        self.marks[slot] = false;
        lower(&mut self.blocks, slot / WIDTH);
        lower(&mut self.groups, slot / WIDTH / WIDTH);
        self.all -= 1;
        self.free_slots();
    }

    /// Makes all slots free once nothing is held.
    fn free_slots(&mut self)
        ensures same { self.new.envelopes ≡ self.old.envelopes }
        ensures spare { self.old.spare ≤ self.new.spare }
    {
        if self.all == 0 {
            self.spare += self.slots.len();
            self.slots.clear();
            self.marks.clear();
            self.blocks.clear();
            self.groups.clear();
        }
    }

    /// Makes room for one put.
    fn make_room(&mut self) -> Result<(), NoMemory>
        ensures ok { OnOk result (0 < self.new.spare) }
        ensures same { self.new.envelopes ≡ self.old.envelopes }
        ensures kept { self.old.spare ≤ self.new.spare }
        ensures room { 0 < self.old.spare → IsOk result }
        ensures err { OnErr result (self.new ≡ self.old) }
    {
        if self.spare > 0 {
            return Ok(());
        }
        self.reserve(1)
    }
}

/// The slot of the envelope that is held at the index.
fn slot_of(marks: &[bool], blocks: &[usize], groups: &[usize], i: usize) -> usize
    requires blocks { AreCounts 32 marks.now blocks.now }
    requires groups { AreCounts 1024 marks.now groups.now }
    requires within { i < count_by is_held marks.now }
    ensures { IsHeldSlot marks.now i result }
{
    let (group, left) = first_above(groups, 0, i);
    let (block, left) = first_above(blocks, group * WIDTH, left);
    slot_after(marks, block * WIDTH, left)
}
