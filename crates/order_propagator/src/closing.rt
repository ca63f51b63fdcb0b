ghost use Rattle.std.specs.Prelude.{◌≡◌, ◌+◌, ◌<◌, OnOk, IfErr, length};
ghost use Rattle.order_axioms.specs.Order.{AreTwoKinds};
ghost use Rattle.sat_trail.specs.Entry.{values_of};
ghost use Rattle.order_propagator.specs.inner.Closed.{IsMissing, IsSetTrue, Precedes};
ghost use Rattle.order_propagator.specs.inner.Closing.{ClosesCycle, ClosesLit, ClosesPair};
ghost use Rattle.order_propagator.specs.inner.Closing.{IsAtRest, IsClosedUpTo, IsStop};
ghost use Rattle.order_propagator.specs.inner.Making.{CanMake, Grows, Makes};
ghost use Rattle.order_propagator.specs.inner.OrderRows.{HasPair};
ghost use Rattle.order_propagator.specs.inner.Rows.{IsCaughtUp, IsClosing, MakesWithRows};

use super::named_trail::NamedTrail;
use super::order_lit::OrderLit;
use super::order_rows::OrderRows;
use super::row_update::catch_up;
use super::stop::Stop;
use order_axioms::{KindPair, OrderNumbers, clauses_forbid_cycles};
use std::alloc::Global;

/// Propagates until the trail has nothing to do and the order is closed under all entries.
pub fn close_all(
    alloc: Global,
    numbers: &OrderNumbers,
    rows: &mut OrderRows,
    named: &mut NamedTrail,
    head: &mut u32,
) -> Result<(), Stop>
    requires { IsClosing numbers.now.order rows.old named.old head.old }
    ensures closing { IsClosing numbers.now.order rows.new named.new head.new }
    ensures grows { Grows numbers.now.order named.old named.new }
    ensures rest { OnOk result (IsAtRest named.new head.new) }
    ensures stop { IfErr result (IsStop named.new.trail) }
{
    loop {
        if *head == named.trail.len() {
            named.propagate()?;
            if *head == named.trail.len() {
                return Ok(());
            }
        }
        close_head(alloc, numbers, rows, named, *head)?;
        *head += 1;
    }
}

/// Closes the order under one entry more.
fn close_head(
    alloc: Global,
    numbers: &OrderNumbers,
    rows: &mut OrderRows,
    named: &mut NamedTrail,
    head: u32,
) -> Result<(), Stop>
    requires closing { IsClosing numbers.now.order rows.old named.old head }
    requires some { head < length named.old.trail.entries }
    ensures closing { IsClosing numbers.now.order rows.new named.new head }
    ensures grows { Grows numbers.now.order named.old named.new }
    ensures next { OnOk result (IsClosedUpTo numbers.now.order named.new (head + 1)) }
    ensures stop { IfErr result (IsStop named.new.trail) }
{
    named.propagate_next()?;
    catch_up(rows, &named.trail)?;
    let lit = rows.at(head as usize);
    close_lit(alloc, numbers, rows, named, lit)
}

/// Makes the clauses that force a literal, or are false, because of this one.
fn close_lit(
    alloc: Global,
    numbers: &OrderNumbers,
    rows: &mut OrderRows,
    named: &mut NamedTrail,
    lit: OrderLit,
) -> Result<(), Stop>
    requires caught_up { IsCaughtUp numbers.now.order rows.old named.old }
    requires pair { HasPair numbers.now.order lit }
    requires holds { IsSetTrue (values_of named.old.trail.entries) lit.lit }
    ensures makes { MakesWithRows numbers.now.order named.old rows.new named.new }
    ensures closed { let known = values_of named.old.trail.entries in
        let now = values_of named.new.trail.entries in
        OnOk result (ClosesLit numbers.now.order known named.new.names now lit.lit) }
    ensures stop { IfErr result (IsStop named.new.trail) }
{
    let Some(pair) = lit.pair else {
        return Ok(());
    };
    close_pair(alloc, numbers, rows, named, pair)
}

/// Makes the clauses that force a literal, or are false, because the first kind of the pair comes
/// before the second. Only kinds for which the rows miss something are looked at.
fn close_pair(
    alloc: Global,
    numbers: &OrderNumbers,
    rows: &mut OrderRows,
    named: &mut NamedTrail,
    pair: KindPair,
) -> Result<(), Stop>
    requires caught_up { IsCaughtUp numbers.now.order rows.old named.old }
    requires kinds { AreTwoKinds numbers.now.order pair.first pair.second }
    requires before { let values = values_of named.old.trail.entries in
        Precedes numbers.now.order values pair.first pair.second }
    ensures makes { MakesWithRows numbers.now.order named.old rows.new named.new }
    ensures closed { let known = values_of named.old.trail.entries in
        let now = values_of named.new.trail.entries in
        OnOk result (ClosesPair numbers.now.order known named.new.names now pair) }
    ensures stop { IfErr result (IsStop named.new.trail) }
{
    let mut from = 1;
    while let Some(kind) = rows.next_missing(pair.first, pair.second, from) {
        close_cycle(alloc, numbers, named, pair.first, pair.second, kind)?;
        catch_up(rows, &named.trail)?;
        from = kind + 1;
    }
    Ok(())
}

/// Makes the clause of three kinds, which forces a literal or is false.
fn close_cycle(
    alloc: Global,
    numbers: &OrderNumbers,
    named: &mut NamedTrail,
    x: u32,
    y: u32,
    z: u32,
) -> Result<(), Stop>
    requires can { CanMake numbers.now.order named.old }
    requires missing { IsMissing numbers.now.order (values_of named.old.trail.entries) x y z }
    ensures makes { Makes numbers.now.order named.old named.new }
    ensures closed { let known = values_of named.old.trail.entries in
        let now = values_of named.new.trail.entries in
        OnOk result (ClosesCycle numbers.now.order known named.new.names now x y z) }
    ensures stop { IfErr result (IsStop named.new.trail) }
{
    // law: each clause of an order forbids a cycle of three kinds
    clauses_forbid_cycles();
    let number = numbers.number(x, y, z);
    named.make(alloc, numbers.order, number, x, y, z)?;
    named.propagate_next()
}
