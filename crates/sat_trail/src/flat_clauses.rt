ghost use Rattle.std.specs.Prelude.{◌≡◌, ◌-◌, ◌<◌, ◌↔◌, ◌++◌, [], ◌∷◌, Some, None, IsSome, IsTrue};
ghost use Rattle.std.specs.Prelude.{◌^◌, length, map, min, All, IfOk, OnOk, OnErr, slice_set, take};
ghost use Rattle.std.specs.List.{sum_by};
ghost use Rattle.clause_core.specs.Numbering.{HasNumber, live};
ghost use Rattle.sat_trail.specs.State.{IsNumberUpTo};
ghost use Rattle.sat_trail.specs.inner.Flat.{IsPackable};

use super::packed_lit::PackedLit;
use super::span::Span;
use clause_core::{Clause, Lit};
use list_base::NoMemory;
use std::alloc::Global;
use std::marker::Model;

/// Spans have positions of four bytes. More literals, with the clauses that they are copied from,
/// would take over 50 GB, so they are answered as out of memory.
const MOST_LITS: usize = 4_294_967_295;

/// The literals of numbered clauses, in four bytes each, one clause after the other. A walk over a
/// clause reads its span and then one piece of memory.
#[derive(Drop)]
pub struct FlatClauses {
    lits: Vec<PackedLit>,
    spans: Vec<Span>,
}

impl Model for FlatClauses {
    ghost use Rattle.std.specs.Prelude.{Option, List, All, length};
    ghost use Rattle.clause_core.specs.declared.literal.Lit.{Lit};
    ghost use Rattle.sat_trail.specs.inner.Flat.{clauses_at, IsInside};

    ghost Value = { List (Option (List Lit)) };

    ghost view = { λ f. clauses_at f.lits.items f.spans.items };

    ghost invariant = { λ f. All (IsInside (length f.lits.items)) f.spans.items };
}

impl FlatClauses {
    /// No clause, but room for as many, and for their literals.
    pub fn with_room(alloc: Global, clauses: usize, lits: usize) -> Result<FlatClauses, NoMemory>
        ensures { IfOk result (λ f. f ≡ []) }
    {
        Ok(FlatClauses {
            lits: Vec::with_capacity(alloc, lits)?,
            spans: Vec::with_capacity(alloc, clauses)?,
        })
    }

    /// The last number that was given to a clause.
    pub fn len(&self) -> usize
        ensures { result ≡ length self.now }
    {
        self.spans.len()
    }

    /// Whether the clause of the number, counted from 1, was not removed.
    pub fn is_live(&self, number: u32) -> bool
        requires { IsNumberUpTo (length self.now) number }
        ensures { IsTrue result ↔ IsSome (live self.now number) }
    {
        let span = self.spans[number as usize - 1];
        span.start <= span.end
    }

    /// The literals of the clause of the number.
    pub fn lits(&self, number: u32) -> &[PackedLit]
        requires { IsSome (live self.now number) }
        ensures { HasNumber (live self.now) number result.now }
    {
        let span = self.spans[number as usize - 1];
        &self.lits.as_slice()[span.start as usize..span.end as usize]
    }

    /// Gives the clause the next number.
    pub fn push(&mut self, c: &Clause) -> Result<(), NoMemory>
        requires { IsPackable c.now }
        ensures ok { OnOk result (self.new ≡ self.old ++ Some c.now ∷ []) }
        ensures err { OnErr result (self.new ≡ self.old) }
    {
        let lits = c.lits();
        let start = self.lits.len();
        let end = start.saturating_add(lits.len());
        if end > MOST_LITS {
            return Err(NoMemory);
        }
        append(&mut self.lits, lits)?;
        let span = Span {
            start: start as u32,
            end: end as u32,
        };
        if let Err(e) = self.spans.push(span) {
            self.lits.truncate(start);
            return Err(e.into());
        }
        Ok(())
    }

    /// Takes the last number back.
    pub fn pop(&mut self)
        requires { 0 < length self.old }
        ensures { self.new ≡ take (length self.old - 1) self.old }
    {
        self.spans.pop();
    }

    /// The number has no clause from here on.
    pub fn remove(&mut self, number: u32)
        requires { IsNumberUpTo (length self.old) number }
        ensures { self.new ≡ slice_set self.old (number - 1) None }
    {
        self.spans[number as usize - 1] = Span { start: 1, end: 0 };
    }
}

/// Puts the literals at the end.
fn append(lits: &mut Vec<PackedLit>, more: &[Lit]) -> Result<(), NoMemory>
    requires { IsPackable more.now }
    ensures ok { OnOk result (lits.new.items ≡ lits.old.items ++ more.now) }
    ensures err { OnErr result (lits.new.items ≡ lits.old.items) }
{
    let start = lits.len();
    for lit in more {
        if let Err(e) = lits.push(PackedLit::of(*lit)) {
            lits.truncate(start);
            return Err(e.into());
        }
    }
    Ok(())
}

/// The literals of the clauses, which have the numbers from 1 on.
pub fn flattened(alloc: Global, clauses: &[Clause]) -> Result<FlatClauses, NoMemory>
    requires { All IsPackable clauses.now }
    ensures { IfOk result (λ flat. flat ≡ map Some clauses.now) }
{
    let mut flat = FlatClauses::with_room(alloc, clauses.len(), count(clauses))?;
    for clause in clauses {
        flat.push(clause)?;
    }
    Ok(flat)
}

/// How many literals the clauses have together, or the largest number if that is less.
fn count(clauses: &[Clause]) -> usize
    ensures { result ≡ min (sum_by length clauses.now) (2 ^ 64 - 1) }
{
    let mut count = 0usize;
    for clause in clauses {
        count = count.saturating_add(clause.lits().len());
    }
    count
}
