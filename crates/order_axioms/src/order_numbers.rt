ghost use Rattle.std.specs.Prelude.{◌≡◌, IfOk};
ghost use Rattle.clause_core.specs.Clause.{IsAscending};
ghost use Rattle.order_axioms.specs.inner.Starts.{AreCycleStarts, ArePairStarts};

use super::order::Order;
use super::starts::{cycle_starts, pair_starts};
use clause_core::{Clause, ClauseList, Lit, equal_members};
use list_base::NoMemory;
use std::alloc::Global;

/// The numbers of an order's clauses. They are found by two tables of where the clauses of a kind
/// start, so no clause is stored.
#[derive(Drop)]
pub struct OrderNumbers {
    pub order: Order,
    /// How many clauses have their first kind among so many.
    cycle_starts: Vec<u32>,
    /// How many of one first kind have their second among so many.
    pair_starts: Vec<u32>,
    ghost are_cycle_starts: { AreCycleStarts order.kinds cycle_starts.items },
    ghost are_pair_starts: { ArePairStarts order.kinds pair_starts.items },
}

impl OrderNumbers {
    ghost use Rattle.std.specs.Prelude.{◌≡◌, ◌++◌, ◌<◌, ◌≤◌, IfOk, OnOk, length};
    ghost use Rattle.clause_core.specs.Clause.{IsAscending};
    ghost use Rattle.clause_core.specs.Numbering.{HasNumber, numbered};
    ghost use Rattle.order_axioms.specs.Order.{AreKinds, AreRising, ForbidsCycle};
    ghost use Rattle.order_axioms.specs.Order.{cycle_clause, order_list};
    ghost use Rattle.order_axioms.specs.inner.Starts.{IsReached, cycle_start, pair_start};

    /// The numbers of the order's clauses.
    pub fn new(alloc: Global, order: Order) -> Result<OrderNumbers, NoMemory>
        ensures { IfOk result (λ numbers. numbers.order ≡ order) }
    {
        let pairs = pair_starts(alloc, order.kinds)?;
        let cycles = cycle_starts(alloc, order.kinds, pairs.as_slice())?;
        Ok(OrderNumbers {
            order,
            cycle_starts: cycles,
            pair_starts: pairs,
        })
    }

    /// How many clauses the order has.
    pub fn count(&self) -> u32
        ensures { result ≡ length (order_list self.now.order) }
    {
        self.cycle_start(self.order.kinds)
    }

    /// The clause of the number, which counts from 1.
    pub fn clause(&self, number: u32) -> [Lit; 3]
        requires from_one { 0 < number }
        requires up_to { number ≤ length (order_list self.now.order) }
        ensures number { HasNumber (numbered (order_list self.now.order)) number result }
        ensures ascending { IsAscending result }
    {
        let index = number - 1;
        let i = self.first_kind(index);
        let rest = index - self.cycle_start(i - 1) + self.pair_start(i);
        let j = self.second_kind(rest);
        let past = rest - self.pair_start(j - 1);
        let k = j + 1 + past / 2;
        self.order.cycle_clause(past % 2 == 1, i, j, k)
    }

    /// The number of the clause that forbids that `x` comes before `y`, `y` before `z` and `z`
    /// before `x`.
    pub fn number(&self, x: u32, y: u32, z: u32) -> u32
        requires { AreKinds self.now.order x y z }
        ensures { ForbidsCycle self.now.order result x y z }
    {
        if x < y && x < z {
            self.number_from(x, y, z)
        } else if y < z {
            self.number_from(y, z, x)
        } else {
            self.number_from(z, x, y)
        }
    }

    /// The same if `x` is the least of the three.
    fn number_from(&self, x: u32, y: u32, z: u32) -> u32
        requires kinds { AreKinds self.now.order x y z }
        requires least { (x < y) × (x < z) }
        ensures { ForbidsCycle self.now.order result x y z }
    {
        if y < z {
            self.number_of(false, x, y, z)
        } else {
            self.number_of(true, x, z, y)
        }
    }

    /// The number of the clause of three rising kinds.
    fn number_of(&self, backward: bool, i: u32, j: u32, k: u32) -> u32
        requires { AreRising self.now.order i j k }
        ensures { HasNumber (numbered (order_list self.now.order)) result
            (cycle_clause self.now.order backward i j k) }
    {
        let pairs = self.pair_start(j - 1) - self.pair_start(i);
        self.cycle_start(i - 1) + pairs + 2 * (k - j - 1) + 1 + u32::from(backward)
    }

    /// How many clauses have one of the first so many kinds as their first.
    fn cycle_start(&self, kinds: u32) -> u32
        requires { kinds ≤ self.now.order.kinds }
        ensures { result ≡ cycle_start self.now.order.kinds kinds }
    {
        self.cycle_starts[kinds as usize]
    }

    /// How many clauses of one first kind have one of the first so many as their second.
    fn pair_start(&self, kinds: u32) -> u32
        requires { kinds ≤ self.now.order.kinds }
        ensures { result ≡ pair_start self.now.order.kinds kinds }
    {
        self.pair_starts[kinds as usize]
    }

    /// The first kind of the clause at the index.
    fn first_kind(&self, index: u32) -> u32
        requires { index < cycle_start self.now.order.kinds self.now.order.kinds }
        ensures { let kinds = self.now.order.kinds in
            IsReached kinds (cycle_start kinds) index result }
    {
        self.cycle_starts.partition_point(|start| *start <= index) as u32
    }

    /// The second kind of a clause, by its index among those of a first kind before all.
    fn second_kind(&self, index: u32) -> u32
        requires { index < pair_start self.now.order.kinds self.now.order.kinds }
        ensures { let kinds = self.now.order.kinds in
            IsReached kinds (pair_start kinds) index result }
    {
        self.pair_starts.partition_point(|start| *start <= index) as u32
    }

    /// Appends all clauses of the order. What an error leaves in the list is not said.
    pub fn push_all(&self, clauses: &mut ClauseList, alloc: Global) -> Result<(), NoMemory>
        ensures { OnOk result (clauses.new ≡ clauses.old ++ order_list self.now.order) }
    {
        for index in 0..self.count() {
            clauses.push(stored(alloc, self.clause(index + 1))?)?;
        }
        Ok(())
    }
}

/// The clause of these literals, which ascend.
fn stored(alloc: Global, lits: [Lit; 3]) -> Result<Clause, NoMemory>
    requires { IsAscending lits }
    ensures { IfOk result (λ clause. clause ≡ lits) }
{
    // law: clauses with the same literals are equal
    equal_members();
    Clause::of(alloc, &lits)
}
