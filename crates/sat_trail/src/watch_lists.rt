ghost use Rattle.std.specs.Prelude.{◌≡◌, ◌+◌, ◌*◌, ◌^◌, ◌<◌, ◌≤◌, length, IfOk, OnOk, IfSome, replicate, slice_set};
ghost use Rattle.clause_core.specs.Literal.{rank};
ghost use Rattle.sat_trail.specs.inner.Watches.{blank, cell, cell_of, Watches, IsTurn, IsPut};
ghost use Rattle.sat_trail.specs.inner.Watches.{head_of, AreLinked};
ghost use Rattle.sat_trail.specs.inner.Attach.{ReservesCells, HasBlankCell, ArePair, IsAttachedTo};
ghost use Rattle.sat_trail.specs.inner.Walk.{AreOthersListed, SetsLink, PutsFirst, MovesWatch};
ghost use Rattle.sat_trail.specs.inner.Walk.{Unlinks, Walks, IsNewWatch};

use super::packed_lit::PackedLit;
use super::watch::{Cell, Watch};
use clause_core::Lit;
use list_base::NoMemory;
use std::alloc::Global;

/// For each literal, a list of the clauses that watch it, linked by their numbers. A clause owns
/// one link in each of its two lists.
#[derive(Drop)]
pub struct WatchLists {
    /// The first number of each list, or 0.
    pub heads: Vec<u32>,
    /// The cell of each number; a clause with fewer than two literals has a blank one.
    pub cells: Vec<Cell>,
}

impl WatchLists {
    /// Empty lists for the literals of the variables up to `vars`, and cells for the numbers up to
    /// `last`.
    pub fn new(alloc: Global, vars: u32, last: usize) -> Result<WatchLists, NoMemory>
        requires { last < 2 ^ 32 }
        ensures heads { IfOk result (λ w. w.heads.items ≡ replicate (2 * vars + 2) 0) }
        ensures cells { IfOk result (λ w. w.cells.items ≡ replicate (last + 1) blank) }
    {
        Ok(WatchLists {
            heads: vec![in alloc; 0u32; 2 * vars as usize + 2]?,
            cells: vec![in alloc; blank(); last + 1]?,
        })
    }

    /// Sees to it that the number has a cell.
    pub fn reserve(&mut self, number: u32) -> Result<(), NoMemory>
        requires { number ≤ length self.old.cells.items }
        ensures ok { OnOk result (number < length self.new.cells.items) }
        ensures grows { ReservesCells self.old.cells.items self.new.cells.items }
        ensures heads { self.new.heads.items ≡ self.old.heads.items }
    {
        if self.cells.len() <= number as usize {
            self.cells.push(blank())?;
        }
        Ok(())
    }

    /// The first clause that watches the literal, or 0.
    pub fn first(&self, lit: PackedLit) -> u32
        requires { rank lit < length self.now.heads.items }
        ensures { result ≡ head_of self.now.heads.items lit }
    {
        self.heads[lit.rank()]
    }

    /// The watches of the number, that of the literal first.
    pub fn watches(&self, number: u32, lit: PackedLit) -> Cell
        requires within { number < length self.now.cells.items }
        requires there { Watches (cell_of self.now.cells.items number) lit }
        ensures turns { IsTurn (cell_of self.now.cells.items number) result }
        ensures here { result.one.lit ≡ lit }
    {
        turned(self.cells[number as usize], lit)
    }

    /// Puts the clause of the number, which watches nothing yet, at the front of both lists.
    pub fn link(&mut self, number: u32, one: PackedLit, other: PackedLit)
        requires one { rank one < length self.old.heads.items }
        requires other { rank other < length self.old.heads.items }
        requires within { number < length self.old.cells.items }
        ensures cells { self.new.cells.items
            ≡ slice_set self.old.cells.items number (cell self.old.heads.items one other) }
        ensures heads { let heads = slice_set self.old.heads.items (rank one) number in
            self.new.heads.items ≡ slice_set heads (rank other) number }
    {
        self.cells[number as usize] = Cell {
            one: Watch {
                lit: one,
                link: self.first(one),
            },
            other: Watch {
                lit: other,
                link: self.first(other),
            },
        };
        self.heads[one.rank()] = number;
        self.heads[other.rank()] = number;
    }

    /// Lets the clause of the number watch these literals, if there are any.
    pub fn attach(&mut self, vars: u32, number: u32, watched: Option<(Lit, Lit)>)
        requires few { vars < 2 ^ 31 }
        requires linked { AreLinked vars self.old.cells.items self.old.heads.items }
        requires blank { HasBlankCell self.old.cells.items number }
        requires pair { IfSome watched (λ pair. ArePair vars pair.0 pair.1) }
        ensures linked { AreLinked vars self.new.cells.items self.new.heads.items }
        ensures attached { IsAttachedTo self.old.cells.items self.new.cells.items number watched }
    {
        if let Some((one, other)) = watched {
            self.link(number, PackedLit::of(one), PackedLit::of(other));
        }
    }

    /// Takes the clause of the number, which comes after `before` in the list of the literal, out
    /// of it, and puts it at the front of another. Gives the number that came next.
    pub fn move_watch(
        &mut self,
        vars: u32,
        lit: PackedLit,
        before: u32,
        number: u32,
        to: PackedLit,
    ) -> u32
        requires vars { length self.old.heads.items ≡ 2 * vars + 2 }
        requires walk { Walks self.old.cells.items self.old.heads.items lit before number }
        requires others { AreOthersListed vars self.old.cells.items self.old.heads.items lit }
        requires exists { (0 < lit.var) × (lit.var ≤ vars) }
        requires to { IsNewWatch vars (cell_of self.old.cells.items number) to }
        ensures { MovesWatch vars self.old.cells.items self.new.cells.items self.old.heads.items
            self.new.heads.items lit to before number result }
    {
        let next = self.watches(number, lit).one.link;
        self.set_link(lit, before, next);
        self.put_front(lit, number, to);
        next
    }

    /// Takes the clause of the number, which comes after `before` in the list of the literal, out
    /// of it. Gives the number that came next. What the clause watches in place of the literal is
    /// one of variable 0, whose list is never walked.
    pub fn unlink(&mut self, vars: u32, lit: PackedLit, before: u32, number: u32) -> u32
        requires vars { length self.old.heads.items ≡ 2 * vars + 2 }
        requires walk { Walks self.old.cells.items self.old.heads.items lit before number }
        requires others { AreOthersListed vars self.old.cells.items self.old.heads.items lit }
        requires exists { (0 < lit.var) × (lit.var ≤ vars) }
        ensures { Unlinks vars self.old.cells.items self.new.cells.items self.old.heads.items
            self.new.heads.items lit before number result }
    {
        let other = self.watches(number, lit).other.lit;
        let none = PackedLit::of(Lit {
            var: 0,
            positive: !other.lit().positive,
        });
        self.move_watch(vars, lit, before, number, none)
    }

    /// Lets the clause of the number, or the list if that is 0, go on with another.
    fn set_link(&mut self, lit: PackedLit, number: u32, next: u32)
        requires list { rank lit < length self.old.heads.items }
        requires within { number < length self.old.cells.items }
        requires there { 0 < number → Watches (cell_of self.old.cells.items number) lit }
        ensures { SetsLink self.old.cells.items self.new.cells.items
            self.old.heads.items self.new.heads.items lit number next }
    {
        if number == 0 {
            self.heads[lit.rank()] = next;
            return;
        }
        let cell = self.cells[number as usize];
        self.cells[number as usize] = put(cell, lit, Watch { lit, link: next });
    }

    /// Puts the clause of the number at the front of a list, in place of another's.
    fn put_front(&mut self, lit: PackedLit, number: u32, to: PackedLit)
        requires list { rank to < length self.old.heads.items }
        requires within { number < length self.old.cells.items }
        requires there { Watches (cell_of self.old.cells.items number) lit }
        ensures { PutsFirst self.old.cells.items self.new.cells.items
            self.old.heads.items self.new.heads.items lit to number }
    {
        let first = self.first(to);
        let cell = self.cells[number as usize];
        self.cells[number as usize] = put(
            cell,
            lit,
            Watch {
                lit: to,
                link: first,
            },
        );
        self.heads[to.rank()] = number;
    }
}

/// A cell that watches nothing.
fn blank() -> Cell
    ensures { result ≡ blank }
{
    Cell {
        one: no_watch(),
        other: no_watch(),
    }
}

/// A watch of no literal.
fn no_watch() -> Watch
    ensures { result ≡ blank.one }
{
    Watch {
        lit: PackedLit::of(Lit {
            var: 0,
            positive: false,
        }),
        link: 0,
    }
}

/// The cell with the watch of the literal first.
fn turned(cell: Cell, lit: PackedLit) -> Cell
    requires { Watches cell lit }
    ensures turns { IsTurn cell result }
    ensures here { result.one.lit ≡ lit }
{
    let (one, other) = (cell.one, cell.other);
    if one.is_of(lit) {
        return Cell { one, other };
    }
    Cell {
        one: other,
        other: one,
    }
}

/// The cell with another watch in place of that of the literal.
fn put(cell: Cell, lit: PackedLit, watch: Watch) -> Cell
    requires { Watches cell lit }
    ensures { IsPut cell lit watch result }
{
    let (one, other) = (cell.one, cell.other);
    if one.is_of(lit) {
        return Cell { one: watch, other };
    }
    Cell { one, other: watch }
}
