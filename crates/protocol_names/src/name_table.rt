ghost use Rattle.std.specs.Prelude.{◌≡◌, ◌<◌, ◌↔◌, ℕ, Some, nat_eq, List, [], ◌∷◌, ◌++◌, length};
ghost use Rattle.std.specs.Prelude.{IsTrue, IfOk, OnOk, OnErr};
ghost use Rattle.std.specs.List.{Contains, position};
ghost use Rattle.std.specs.Str.{bytes_eq};
ghost use Rattle.protocol_names.specs.inner.IndexMap.{IsIndexMap, KeepsIndex, bytes_of};
ghost use Rattle.protocol_names.specs.inner.IndexMap.{at_number, at_name};

use super::number::name_number;
use bspl_types::{NoMemory, Seq};
use std::alloc::Global;
use std::collections::BTreeMap;
use std::marker::Model;

/// A name is compared with each of this many names or fewer, which is faster than a map.
const FEW_NAMES: usize = 8;

/// Names in order, found by ordered maps. The text lends them. Contracts see their bytes.
///
/// One map has the first index of each number of a name. The other has the names whose number is
/// that of another name: a comparison of bytes is dear, and hardly any name needs one there.
#[derive(Drop)]
pub struct NameTable<'n> {
    names: Seq<&'n [u8]>,
    by_number: BTreeMap<u64, usize>,
    by_bytes: BTreeMap<&'n [u8], usize>,
}

impl<'n> Model for NameTable<'n> {
    ghost use Rattle.std.specs.Prelude.{List, ℕ};
    ghost use Rattle.protocol_names.specs.inner.IndexMap.{IsIndexMap, bytes_of, at_number, at_name};

    ghost Value = { List (List ℕ) };

    ghost view = { λ r. bytes_of r.names };

    ghost invariant = { λ r.
        IsIndexMap (bytes_of r.names) (at_number r.by_number) (at_name r.by_bytes) };
}

impl<'n> NameTable<'n> {
    /// A table without names.
    pub fn new(alloc: Global) -> NameTable<'n>
        ensures { result ≡ [] }
    {
        NameTable {
            names: Seq::new(alloc),
            by_number: BTreeMap::new(alloc),
            by_bytes: BTreeMap::new(alloc),
        }
    }

    /// How many names there are, each as often as it was added.
    pub fn len(&self) -> usize
        ensures { result ≡ length self.now }
    {
        self.names.len()
    }

    /// Whether the name is there.
    pub fn has(&self, name: &[u8]) -> bool
        ensures { IsTrue result ↔ Contains self.now name.now }
    {
        self.index(name).is_some()
    }

    /// The first index of the name, if it is there.
    pub fn index(&self, name: &[u8]) -> Option<usize>
        ensures { result ≡ position (λ n. bytes_eq n name.now) self.now }
    {
        if self.names.len() <= FEW_NAMES {
            return first_index(self.names.as_slice(), name);
        }
        let Some(index) = self.by_number.get(&name_number(name)).copied() else {
            return None;
        };
        if *self.names.at(index) == name {
            return Some(index);
        }
        self.by_bytes.get(name).copied()
    }

    /// Adds the name at the end, and returns whether it was there. If so, it keeps its first index.
    pub fn add(&mut self, name: &'n [u8]) -> Result<bool, NoMemory>
        ensures ok { OnOk result (self.new ≡ self.old ++ name.now ∷ []) }
        ensures known { IfOk result (λ known. IsTrue known ↔ Contains self.old name.now) }
        ensures err { OnErr result (self.new ≡ self.old) }
    {
        let index = self.names.len();
        self.names.push(name)?;
        let (numbers, others) = (&mut self.by_number, &mut self.by_bytes);
        match keep_index(self.names.as_slice(), numbers, others, name, index) {
            Ok(known) => Ok(known),
            Err(error) => {
                self.names.pop();
                Err(error)
            }
        }
    }

    /// Adds the name at the end. A name that is there already keeps its first index.
    pub fn push(&mut self, name: &'n [u8]) -> Result<(), NoMemory>
        ensures ok { OnOk result (self.new ≡ self.old ++ name.now ∷ []) }
        ensures err { OnErr result (self.new ≡ self.old) }
    {
        self.add(name)?;
        Ok(())
    }
}

/// The first index of the name, by comparing it with each name in turn.
fn first_index(names: &[&[u8]], name: &[u8]) -> Option<usize>
    ensures { result ≡ position (λ n. bytes_eq n.now name.now) names.now }
{
    names.iter().position(|n| *n == name)
}

/// Writes the index of the last name, unless it has one. Returns whether it has.
fn keep_index<'n>(
    names: &[&'n [u8]],
    by_number: &mut BTreeMap<u64, usize>,
    by_bytes: &mut BTreeMap<&'n [u8], usize>,
    name: &'n [u8],
    index: usize,
) -> Result<bool, NoMemory>
    requires within { (number i : ℕ) → at_number by_number.old number ≡ Some i →
        i < length names.now }
    requires last { index < length names.now }
    ensures ok { (before : List (List ℕ)) → length before ≡ index →
        bytes_of names.now ≡ before ++ name.now ∷ [] →
        IsIndexMap before (at_number by_number.old) (at_name by_bytes.old) →
        OnOk result
        (IsIndexMap (bytes_of names.now) (at_number by_number.new) (at_name by_bytes.new)) }
    ensures known { (before : List (List ℕ)) → length before ≡ index →
        bytes_of names.now ≡ before ++ name.now ∷ [] →
        IsIndexMap before (at_number by_number.old) (at_name by_bytes.old) →
        IfOk result (λ known. IsTrue known ↔ Contains before name.now) }
    ensures err { (before : List (List ℕ)) → length before ≡ index →
        IsIndexMap before (at_number by_number.old) (at_name by_bytes.old) →
        OnErr result (IsIndexMap before (at_number by_number.new) (at_name by_bytes.new)) }
{
    let first = keep_number(by_number, name_number(name), index)?;
    if first == index {
        return Ok(false);
    }
    if names[first] == name {
        return Ok(true);
    }
    let first = keep_bytes(by_bytes, name, index)?;
    Ok(first != index)
}

/// Writes this index at the number, unless it has one. Returns the one that it has then.
fn keep_number(map: &mut BTreeMap<u64, usize>, number: u64, index: usize) -> Result<usize, NoMemory>
    ensures ok { IfOk result
        (KeepsIndex nat_eq number index (at_number map.old) (at_number map.new)) }
    ensures err { (n : ℕ) → OnErr result (at_number map.new n ≡ at_number map.old n) }
{
    Ok(*map.entry(number)?.or_insert(index))
}

/// Writes this index at the name, unless it has one. Returns the one that it has then.
fn keep_bytes<'n>(
    map: &mut BTreeMap<&'n [u8], usize>,
    name: &'n [u8],
    index: usize,
) -> Result<usize, NoMemory>
    ensures ok { IfOk result
        (KeepsIndex bytes_eq name.now index (at_name map.old) (at_name map.new)) }
    ensures err { (n : List ℕ) → OnErr result (at_name map.new n ≡ at_name map.old n) }
{
    Ok(*map.entry(name)?.or_insert(index))
}
