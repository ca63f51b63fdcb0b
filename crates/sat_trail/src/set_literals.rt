ghost use Rattle.std.specs.Prelude.{◌≡◌, ◌-◌, ◌+◌, ◌^◌, ◌<◌, ◌≤◌, ◌++◌, [], ◌∷◌, None, Some, length};
ghost use Rattle.std.specs.Prelude.{take, IfOk, slice_get, IsTrue, IfSome, ◌↔◌};
ghost use Rattle.clause_core.specs.Propagation.{MakesFalse};
ghost use Rattle.sat_trail.specs.Entry.{entry_of, values_of, last_level};
ghost use Rattle.sat_trail.specs.State.{IsNumberUpTo};
ghost use Rattle.sat_trail.specs.inner.Storage.{StartsWith, HasRoom};

use super::entry::Entry;
use super::packed_lit::PackedLit;
use super::value::Value;
use clause_core::Lit;
use list_base::NoMemory;
use std::alloc::Global;
use std::marker::Model;

/// Literals have numbers of four bytes. The tables of more variables would take over 100 GB, so
/// they are answered as out of memory.
const MOST_VARS: u32 = 2_147_483_647;

/// Set literals in the order of setting. Each variable has a cell with its entry, and all memory
/// is taken at the start. The value of each literal also stands in one byte, at the literal's rank.
#[derive(Drop)]
pub struct Entries {
    slots: Vec<Entry>,
    len: usize,
    cells: Vec<Option<Entry>>,
    values: Vec<Value>,
}

impl Model for Entries {
    ghost use Rattle.std.specs.Prelude.{◌≡◌, ◌<◌, ◌≤◌, length, take};
    ghost use Rattle.sat_trail.specs.inner.Storage.{Assigned, IsStored};

    ghost Value = { Assigned };

    ghost view = { λ a. record {
      vars = length a.cells.items;
      entries = take a.len a.slots.items;
    } };

    ghost invariant = { λ a. IsStored a.slots.items a.len a.cells.items a.values.items };
}

impl Entries {
    /// No literal is set.
    pub fn new(alloc: Global, vars: u32) -> Result<Entries, NoMemory>
        ensures none { IfOk result (λ e. e ≡ record { vars = vars; entries = [] }) }
        ensures few { IfOk result (λ _. vars < 2 ^ 31) }
    {
        if vars > MOST_VARS {
            return Err(NoMemory);
        }
        let blank = Entry {
            lit: Lit {
                var: 0,
                positive: false,
            },
            level: 0,
            reason: None,
        };
        Ok(Entries {
            slots: vec![in alloc; blank; vars as usize]?,
            len: 0,
            cells: vec![in alloc; None; vars as usize]?,
            values: vec![in alloc; Value::Unset; 2 * vars as usize + 2]?,
        })
    }

    /// The number of variables.
    pub fn vars(&self) -> u32
        ensures same { result ≡ self.now.vars }
        ensures few { result < 2 ^ 31 }
    {
        self.cells.len() as u32
    }

    /// How many literals are set.
    pub fn len(&self) -> usize
        ensures count { result ≡ length self.now.entries }
        ensures within { length self.now.entries ≤ self.now.vars }
        ensures room { HasRoom self.now }
    {
        self.len
    }

    /// The entry at the position.
    pub fn at(&self, i: usize) -> Entry
        requires { i < length self.now.entries }
        ensures entry { slice_get self.now.entries i ≡ Some result }
        ensures from_one { 0 < result.lit.var }
        ensures exists { result.lit.var ≤ self.now.vars }
        ensures few { result.lit.var < 2 ^ 31 }
    {
        self.slots[i]
    }

    /// The entry that sets the variable.
    pub fn of(&self, var: u32) -> Option<Entry>
        requires { IsNumberUpTo self.now.vars var }
        ensures { result ≡ entry_of self.now.entries var }
    {
        self.cells[var as usize - 1]
    }

    /// The variable's value, if it has one.
    pub fn value(&self, var: u32) -> Option<bool>
        requires { IsNumberUpTo self.now.vars var }
        ensures { result ≡ values_of self.now.entries var }
    {
        self.of(var).map(|entry| entry.lit.positive)
    }

    /// Whether the literal is true. A literal of variable 0 is not.
    pub fn is_true(&self, lit: PackedLit) -> bool
        requires { lit.var ≤ self.now.vars }
        ensures { IsTrue result ↔ (values_of self.now.entries lit.var ≡ Some lit.positive) }
    {
        self.values[lit.rank()] == Value::True
    }

    /// Whether the literal is false.
    pub fn is_false(&self, lit: PackedLit) -> bool
        requires { lit.var ≤ self.now.vars }
        ensures { IsTrue result ↔ MakesFalse (values_of self.now.entries) lit }
    {
        self.values[lit.rank()] == Value::False
    }

    /// Whether the variable has no value, or was set at the level.
    pub fn is_open(&self, var: u32, level: u32) -> bool
        requires { IsNumberUpTo self.now.vars var }
        ensures { IsTrue result
            ↔ IfSome (entry_of self.now.entries var) (λ e. e.level ≡ level) }
    {
        match self.of(var) {
            Some(entry) => entry.level == level,
            None => true,
        }
    }

    /// Sets a literal after the others.
    pub fn push(&mut self, entry: Entry)
        requires exists { IsNumberUpTo self.old.vars entry.lit.var }
        requires no_value { values_of self.old.entries entry.lit.var ≡ None }
        ensures { self.new ≡ record self.old { entries = self.old.entries ++ entry ∷ [] } }
    {
        self.slots[self.len] = entry;
        self.len += 1;
        self.cells[entry.lit.var as usize - 1] = Some(entry);
        self.values[PackedLit::of(entry.lit).rank()] = Value::True;
        self.values[PackedLit::of(entry.lit.negation()).rank()] = Value::False;
    }

    /// Takes the last entry out.
    pub fn pop(&mut self)
        requires { 0 < length self.old.entries }
        ensures { let entries = take (length self.old.entries - 1) self.old.entries in
            self.new ≡ record self.old { entries = entries } }
    {
        self.len -= 1;
        let last = self.slots[self.len];
        self.cells[last.lit.var as usize - 1] = None;
        self.values[PackedLit::of(last.lit).rank()] = Value::Unset;
        self.values[PackedLit::of(last.lit.negation()).rank()] = Value::Unset;
    }

    /// Takes the entries above the level out, which are the last.
    pub fn back_to(&mut self, level: u32)
        ensures dropped { StartsWith level self.old self.new }
        ensures last { last_level self.new.entries ≤ level }
    {
        while self.last_level() > level {
            self.pop();
        }
    }

    /// The level of the last entry, or 0.
    fn last_level(&self) -> u32
        ensures { result ≡ last_level self.now.entries }
    {
        if self.len == 0 {
            return 0;
        }
        self.slots[self.len - 1].level
    }
}

/// Takes the entries of the levels above this one out. The clauses and the lists of their watches
/// are out of its reach, so that a backtrack changes none of them.
pub fn backtrack(set: &mut Entries, head: &mut usize, level: &mut u32, to: u32)
    ensures dropped { StartsWith to set.old set.new }
    ensures last { last_level set.new.entries ≤ to }
    ensures head { head.new ≡ length set.new.entries }
    ensures level { level.new ≡ to }
{
    set.back_to(to);
    *level = to;
    *head = set.len();
}
