ghost use Rattle.std.specs.Prelude.{◌≡◌, ◌≢◌, ◌<◌, ◌≤◌, ◌-◌, ◌++◌, [], ◌∷◌, length, take, Contains};
ghost use Rattle.std.specs.Prelude.{IfOk, OnOk, OnErr, IfSome, IfNone};
ghost use Rattle.order_propagator.specs.inner.OrderRows.{IsCompleteFrom, IsLitAt, IsNextMissing};
ghost use Rattle.order_propagator.specs.inner.OrderRows.{Says};

use super::bit_rows::BitRows;
use super::bits::lowest_from;
use super::known_pairs::KnownPairs;
use super::order_lit::OrderLit;
use clause_core::Lit;
use list_base::NoMemory;
use order_axioms::Order;
use std::alloc::Global;
use std::marker::Model;

/// Literals that hold, and for each kind of an order which kinds come before and after it by them.
/// A literal comes and goes in a few steps, and so is the next kind found for which something that
/// follows from two others is missing.
#[derive(Drop)]
pub struct OrderRows {
    pairs: KnownPairs,
    lits: Vec<OrderLit>,
    rows: BitRows,
}

impl Model for OrderRows {
    ghost use Rattle.std.specs.Prelude.{map};
    ghost use Rattle.order_propagator.specs.inner.OrderRows.{RowState};
    ghost use Rattle.order_propagator.specs.inner.BitRows.{AreOrderRows};

    ghost Value = { RowState };

    ghost view = { λ r. record { order = r.pairs; lits = map (λ l. l.lit) r.lits.items } };

    ghost invariant = { λ r. AreOrderRows r.pairs r.lits.items r.rows };
}

impl OrderRows {
    /// No literal holds.
    pub fn new(alloc: Global, order: Order) -> Result<OrderRows, NoMemory>
        ensures { IfOk result (λ r. r ≡ record { order = order; lits = [] }) }
    {
        Ok(OrderRows {
            pairs: KnownPairs::new(alloc, order)?,
            lits: Vec::new(alloc),
            rows: BitRows::new(alloc, order.kinds)?,
        })
    }

    /// How many literals hold.
    pub fn len(&self) -> usize
        ensures { result ≡ length self.now.lits }
    {
        self.lits.len()
    }

    /// The literal that came at the index, and the kinds of which it speaks.
    pub fn at(&self, index: usize) -> OrderLit
        requires { index < length self.now.lits }
        ensures { IsLitAt self.now index result }
    {
        self.lits[index]
    }

    /// The literal holds too from here on.
    pub fn push(&mut self, lit: Lit) -> Result<(), NoMemory>
        requires { ¬ Contains self.old.lits lit }
        ensures ok { let lits = self.old.lits ++ lit ∷ [] in
            OnOk result (self.new ≡ record self.old { lits = lits }) }
        ensures err { OnErr result (self.new ≡ self.old) }
    {
        let pair = self.pairs.pair(lit);
        self.lits.push(OrderLit { lit, pair })?;
        self.rows.put(pair);
        Ok(())
    }

    /// Only the first literals hold from here on.
    pub fn truncate(&mut self, count: usize)
        ensures { self.new ≡ record self.old { lits = take count self.old.lits } }
    {
        while self.lits.len() > count {
            self.pop();
        }
    }

    /// The last literal does not hold from here on.
    fn pop(&mut self)
        ensures { let count = length self.old.lits - 1 in
            self.new ≡ record self.old { lits = take count self.old.lits } }
    {
        let Some(last) = self.lits.pop() else {
            return;
        };
        self.rows.clear(last.pair);
    }

    /// The first kind from this one on with which something that follows from `x` before `y` is
    /// missing.
    pub fn next_missing(&self, x: u32, y: u32, from: u32) -> Option<u32>
        requires says { Says self.now.order self.now.lits x y }
        requires one_way { ¬ Says self.now.order self.now.lits y x }
        requires from_one { 0 < from }
        ensures some { IfSome result (IsNextMissing self.now x y from) }
        ensures none { IfNone result (IsCompleteFrom self.now x y from) }
    {
        if from > self.pairs.order().kinds {
            return None;
        }
        match lowest_from(self.rows.missing(x, y), from - 1) {
            Some(place) => Some(place + 1),
            None => None,
        }
    }
}
