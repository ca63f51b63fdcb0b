ghost use Rattle.std.specs.Prelude.{◌≡◌, ◌<◌, ◌↔◌, [], ◌∷◌, ◌++◌, length, IsTrue, Some, IfSome};
ghost use Rattle.std.specs.Prelude.{IfNone, IsNone, IfOk, OnOk, OnErr, slice_get, slice_set};
ghost use Rattle.std.specs.Borrow.{sem};
ghost use Rattle.list_base.specs.Lending.{LendsItem};

use super::memory::{NoMemory, TryClone};
use std::alloc::Global;
use std::marker::Model;
use std::mem;

/// A list that grows at its end. Contracts see the items, in order.
#[derive(Drop)]
pub struct Seq<T> {
    items: Vec<T>,
}

impl<T> Model for Seq<T> {
    ghost use Rattle.std.specs.Prelude.{List};
    ghost use Rattle.std.specs.Coded.{coded_list};

    ghost Value = { List T };

    ghost coded = { coded_list T.code };

    ghost view = { λ s. s.items.items };
}

impl<T> Seq<T> {
    /// A list without items, which takes no memory yet.
    pub fn new(alloc: Global) -> Seq<T>
        ensures { result ≡ [] }
    {
        Seq {
            items: Vec::new(alloc),
        }
    }

    /// A list without items, which takes memory for the first `room` of them.
    pub fn with_room(alloc: Global, room: usize) -> Result<Seq<T>, NoMemory>
        ensures { IfOk result (λ list. list ≡ []) }
    {
        Ok(Seq {
            items: Vec::with_capacity(alloc, room)?,
        })
    }

    /// How many items there are.
    pub fn len(&self) -> usize
        ensures { result ≡ length self.now }
    {
        self.items.len()
    }

    /// Whether there is none.
    pub fn is_empty(&self) -> bool
        ensures { IsTrue result ↔ (self.now ≡ []) }
    {
        self.items.is_empty()
    }

    /// Lends the items, in order.
    pub fn as_slice(&self) -> &[T]
        ensures { result.now ≡ self.now }
    {
        self.items.as_slice()
    }

    /// Lends the item at the index, from 0.
    pub fn at(&self, i: usize) -> &T
        requires { i < length self.now }
        ensures { slice_get self.now i ≡ Some result.now }
    {
        &self.items[i]
    }

    /// Lends the item at the index to be changed.
    pub fn at_mut(&mut self, i: usize) -> &mut T
        requires { i < length self.old }
        ensures* writes_back { sem 𝓛 (LendsItem T.row self.entry i result) }
        ensures item { slice_get self.old i ≡ Some result.now }
    {
        &mut self.items[i]
    }

    /// Puts the item at the index, and gives back the one that it replaces.
    pub fn replace(&mut self, i: usize, item: T) -> T
        requires { i < length self.old }
        ensures list { self.new ≡ slice_set self.old i item }
        ensures replaced { slice_get self.old i ≡ Some result }
    {
        mem::replace(&mut self.items[i], item)
    }

    /// Takes the last item out.
    pub fn pop(&mut self) -> Option<T>
        ensures last { IfSome result (λ item. self.old ≡ self.new ++ item ∷ []) }
        ensures empty { IsNone result ↔ (self.old ≡ []) }
        ensures none { IfNone result (self.new ≡ []) }
    {
        self.items.pop()
    }
}

impl<T: Drop> Seq<T> {
    /// Puts an item at the end. An error drops the item.
    pub fn push(&mut self, item: T) -> Result<(), NoMemory>
        ensures ok { OnOk result (self.new ≡ self.old ++ item ∷ []) }
        ensures err { OnErr result (self.new ≡ self.old) }
    {
        self.items.push(item)?;
        Ok(())
    }
}

impl<T: Copy> Seq<T> {
    /// Puts a copy of each item of the slice at the end.
    pub fn append(&mut self, more: &[T]) -> Result<(), NoMemory>
        ensures ok { OnOk result (self.new ≡ self.old ++ more.now) }
        ensures err { OnErr result (self.new ≡ self.old) }
    {
        self.items.extend_from_slice(more)?;
        Ok(())
    }

    /// A list with the items of the slice.
    pub fn from_slice(alloc: Global, items: &[T]) -> Result<Seq<T>, NoMemory>
        ensures { IfOk result (λ list. list ≡ items.now) }
    {
        Ok(Seq {
            items: Vec::from_slice(alloc, items)?,
        })
    }
}

impl<T: TryClone + Drop> TryClone for Seq<T> {
    fn try_clone(&self) -> Result<Seq<T>, NoMemory> {
        let mut copies = Seq::new(*self.items.allocator());
        for item in self.items.as_slice() {
            copies.push(item.try_clone()?)?;
        }
        Ok(copies)
    }
}
