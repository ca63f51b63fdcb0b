ghost use Rattle.std.specs.Prelude.{◌≡◌, ◌+◌, ◌^◌, ◌<◌, ◌≤◌, ◌++◌, ◌⊎◌, [], ◌∷◌, None, false};
ghost use Rattle.std.specs.Prelude.{length, All, IsTrue, IfOk, OnErr, IfSome, IfNone, is_none};
ghost use Rattle.std.specs.List.{range_with_len};
ghost use Rattle.clause_core.specs.declared.formula.Formula.{Formula as WholeFormula};
ghost use Rattle.clause_core.specs.Clause.{VariablesExist};
ghost use Rattle.clause_core.specs.Propagation.{IsFalsified, IsPropagated};
ghost use Rattle.order_axioms.specs.Order.{order_list};
ghost use Rattle.sat_trail.specs.Entry.{values_of, up_to, decided};
ghost use Rattle.sat_trail.specs.State.{IsNumberUpTo, numbering_of, last_number};
ghost use Rattle.sat_trail.specs.Trail.{IsTrail, IsStart, Adds, HasTwoOpen, Propagates};
ghost use Rattle.order_propagator.specs.Whole.{IsWhole};

use super::closing::close_all;
use super::named_trail::NamedTrail;
use super::order_rows::OrderRows;
use super::stop::Stop;
use clause_core::{Clause, Formula, Lit};
use list_base::{NoMemory, NumberList, Seq};
use order_axioms::{Order, OrderNumbers, clauses_forbid_cycles};
use sat_trail::Trail;
use std::alloc::Global;
use std::marker::Model;

/// Set literals over the clauses of an order and then those of a formula. A clause of the order is
/// made, and watched from then on, when it forces a literal or is false (lazy clause generation:
/// Ohrimenko, Stuckey and Codish 2009).
#[derive(Drop)]
pub struct OrderTrail<'f> {
    alloc: Global,
    pub(crate) numbers: OrderNumbers,
    /// Which kinds come before which by the first entries.
    rows: OrderRows,
    pub(crate) named: NamedTrail<'f>,
    /// For each clause after those of the order its number in the trail.
    pub(crate) places: NumberList,
    /// The order is closed under so many entries.
    head: u32,
    pub(crate) ready: bool,
}

impl<'f> Model for OrderTrail<'f> {
    ghost use Rattle.sat_trail.specs.State.{State};
    ghost use Rattle.order_propagator.specs.inner.Rows.{IsKeptWithRows};
    ghost use Rattle.order_propagator.specs.inner.Whole.{whole_state};

    ghost Value = { State };

    ghost view = { λ a. whole_state a.numbers.order a.named a.places a.ready };

    ghost invariant = { λ a. IsKeptWithRows a.numbers.order a.rows a.named a.places a.head
        a.ready };
}

impl<'f> OrderTrail<'f> {
    /// The order's clauses have the numbers from 1 on, and after them come those of the formula,
    /// which are borrowed.
    pub fn new(alloc: Global, f: &'f Formula, order: Order) -> Result<OrderTrail<'f>, NoMemory>
        requires few { length (order_list order) + length f.now.clauses < 2 ^ 32 }
        requires exist { All (VariablesExist f.now.vars) (order_list order) }
        ensures start { IfOk result (λ t. (whole : WholeFormula) →
            IsWhole order f.now whole → IsStart whole t) }
        ensures sound { IfOk result IsTrail }
    {
        // law: each clause of an order forbids a cycle of three kinds
        clauses_forbid_cycles();
        let numbers = OrderNumbers::new(alloc, order)?;
        let rows = OrderRows::new(alloc, order)?;
        let first = numbers.count();
        let stored = f.clauses.len() as u32;
        let names = numbers_after(alloc, first, stored)?;
        let places = numbers_after(alloc, 0, stored)?;
        let trail = Trail::new(alloc, f)?;
        Ok(OrderTrail {
            alloc,
            numbers,
            rows,
            named: NamedTrail { trail, names },
            places,
            head: 0,
            ready: false,
        })
    }

    /// Gives the clause the next number, which it returns. Out of memory drops the clause.
    pub fn add(&mut self, c: Clause) -> Result<u32, NoMemory>
        requires exist { VariablesExist self.old.vars c }
        requires few { last_number self.old + 1 < 2 ^ 32 }
        requires open { (self.old.level ≡ 0) ⊎ HasTwoOpen self.old.entries self.old.level c }
        ensures ok { IfOk result (Adds self.old c self.new) }
        ensures err { OnErr result (self.new ≡ self.old) }
        ensures sound { IsTrail self.new }
    {
        // law: each clause of an order forbids a cycle of three kinds
        clauses_forbid_cycles();
        let name = self.last_number() + 1;
        let number = self.named.next_number()?;
        self.places.push(number)?;
        match self.named.add(c, name) {
            Ok(()) => {
                self.ready = false;
                Ok(name)
            }
            Err(error) => {
                let _place = self.places.pop();
                Err(error)
            }
        }
    }

    /// Sets what unit clauses force, until none is left or a clause is false. Gives the number of
    /// the false clause. Clauses of the order that are made for this take memory; when it runs out,
    /// what was set so far stays.
    pub fn propagate(&mut self) -> Result<Option<u32>, NoMemory>
        ensures grows { Propagates self.old self.new }
        ensures ready { IfOk result (λ found. self.new.ready ≡ is_none found) }
        ensures unready { OnErr result (self.new.ready ≡ false) }
        ensures propagated { let values = values_of self.new.entries in
            IfOk result (λ found. IfNone found (IsPropagated values (numbering_of self.new))) }
        ensures falsified { let values = values_of self.new.entries in
            IfOk result (λ found. IfSome found (IsFalsified (numbering_of self.new) values)) }
        ensures sound { IsTrail self.new }
    {
        // law: each clause of an order forbids a cycle of three kinds
        clauses_forbid_cycles();
        self.ready = false;
        match close_all(
            self.alloc,
            &self.numbers,
            &mut self.rows,
            &mut self.named,
            &mut self.head,
        ) {
            Ok(()) => {
                self.ready = true;
                Ok(None)
            }
            Err(Stop::Falsified(number)) => Ok(Some(self.named.name(number))),
            Err(Stop::NoMemory) => Err(NoMemory),
        }
    }

    /// Sets the literal at a new level.
    pub fn decide(&mut self, lit: Lit)
        requires ready { IsTrue self.old.ready }
        requires exists { IsNumberUpTo self.old.vars lit.var }
        requires no_value { values_of self.old.entries lit.var ≡ None }
        ensures decided { let level = self.old.level + 1 in
            let entries = self.old.entries ++ decided lit level ∷ [] in
            self.new ≡ record self.old { entries = entries; level = level; ready = false } }
        ensures room { length self.old.entries < self.old.vars }
        ensures sound { IsTrail self.new }
    {
        // law: each clause of an order forbids a cycle of three kinds
        clauses_forbid_cycles();
        self.named.trail.decide(lit);
        self.ready = false;
    }

    /// Backtracks: takes the literals of the levels above this one out. The clauses of the order
    /// that were made stay.
    pub fn back_to(&mut self, level: u32)
        requires { level ≤ self.old.level }
        ensures kept { let entries = up_to level self.old.entries in
            self.new ≡ record self.old { entries = entries; level = level; ready = false } }
        ensures sound { IsTrail self.new }
    {
        // law: each clause of an order forbids a cycle of three kinds
        clauses_forbid_cycles();
        self.ready = false;
        self.named.trail.back_to(level);
        let count = self.named.trail.len();
        self.head = self.head.min(count);
        self.rows.truncate(count as usize);
    }

    /// A law: what every trail keeps.
    pub fn is_trail(&self)
        ensures { IsTrail self.now }
    {
        // law: each clause of an order forbids a cycle of three kinds
        clauses_forbid_cycles();
        let _head = self.head;
    }
}

/// The numbers after the first so many.
fn numbers_after(alloc: Global, first: u32, count: u32) -> Result<NumberList, NoMemory>
    requires { first + count < 2 ^ 32 }
    ensures { IfOk result (λ numbers. numbers ≡ range_with_len (first + 1) count) }
{
    let mut numbers: NumberList = Seq::with_room(alloc, count as usize)?;
    for index in 0..count {
        numbers.push(first + index + 1)?;
    }
    Ok(numbers)
}
