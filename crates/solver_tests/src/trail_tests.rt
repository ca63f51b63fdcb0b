ghost use Rattle.std.specs.Prelude.{◌≡◌, ◌<◌, ◌⊎◌, ℕ, None, length};
ghost use Rattle.std.specs.Bool.{OnTrue};
ghost use Rattle.sat_trail.specs.Entry.{values_of};
ghost use Rattle.sat_trail.specs.State.{IsNumberUpTo};
ghost use Rattle.sat_trail.specs.Trail.{HasTwoOpen, IsNoReason};

use super::formulas::{clause, formula, lit};
use super::trail_rows::ROWS;
use clause_core::{Clause, Formula, Lit};
use list_base::NoMemory;
use sat_trail::Trail;
use std::alloc::Global;
use std::test::Fail;

/// A set literal and its level.
#[derive(Clone, Copy)]
pub enum Set {
    Decided(i32, u32),
    /// The last number is that of the clause that forced it.
    Forced(i32, u32, u32),
}

/// A call on the trail.
#[derive(Clone, Copy)]
pub enum Call {
    /// It gives the number of a clause that is false.
    Propagate(Option<u32>),
    Decide(i32),
    BackTo(u32),
    /// The clause of the literals gets the number.
    Add(&'static [i32], u32),
    Remove(u32),
}

/// A call, and how it leaves the trail: whether that is ready, the numbers of its live clauses, and
/// what is set.
pub struct Step {
    pub call: Call,
    pub ready: bool,
    pub live: &'static [u32],
    pub set: &'static [Set],
}

/// A formula, and calls on its trail.
pub struct Row {
    pub vars: u32,
    pub clauses: &'static [&'static [i32]],
    pub steps: &'static [Step],
}

/// Whether the literal's variable exists and has no value.
fn is_unset(trail: &Trail, lit: Lit) -> bool
    ensures exists { OnTrue result (IsNumberUpTo trail.now.vars lit.var) }
    ensures no_value { OnTrue result (values_of trail.now.entries lit.var ≡ None) }
{
    0 < lit.var && lit.var <= trail.vars() && trail.value(lit.var).is_none()
}

/// Decides on the literal; whether the trail allows it.
fn decides(trail: &mut Trail, lit: Lit) -> bool {
    if !trail.ready() || !is_unset(trail, lit) {
        return false;
    }
    trail.decide(lit);
    true
}

/// Backtracks to the level; whether the trail allows it.
fn goes_back(trail: &mut Trail, level: u32) -> bool {
    if level > trail.level() {
        return false;
    }
    trail.back_to(level);
    true
}

/// Whether no literal is set, or one alone, which was decided.
fn has_no_reasons(trail: &Trail) -> bool
    ensures { (number : ℕ) → OnTrue result (IsNoReason trail.now number) }
{
    match trail.len() {
        0 => true,
        1 => trail.reason(trail.at(0).var).is_none(),
        _ => false,
    }
}

/// Removes the clause of the number; whether the trail allows it.
fn removes(trail: &mut Trail, number: u32) -> bool {
    if !has_no_reasons(trail) || !trail.has_clause(number) {
        return false;
    }
    trail.remove(number);
    true
}

/// Whether these are two literals of the clause, and have no values.
fn are_open(trail: &Trail, c: &Clause, one: Lit, other: Lit) -> bool
    ensures { OnTrue result (HasTwoOpen trail.now.entries trail.now.level c.now) }
{
    one != other && c.has(one) && c.has(other) && is_unset(trail, one) && is_unset(trail, other)
}

/// Whether the trail may have the clause of these literals added.
fn may_add(trail: &Trail, c: &Clause, numbers: &[i32]) -> bool
    ensures { OnTrue result
        ((trail.now.level ≡ 0) ⊎ HasTwoOpen trail.now.entries trail.now.level c.now) }
{
    if trail.level() == 0 {
        return true;
    }
    match numbers {
        [one, other] => are_open(trail, c, lit(*one), lit(*other)),
        _ => false,
    }
}

/// The number under which the clause is added; nothing if the trail does not allow it or memory
/// runs out.
fn add(alloc: Global, trail: &mut Trail, numbers: &[i32]) -> Option<u32> {
    let added = clause(alloc, numbers).ok()?;
    if !added.is_over(trail.vars()) || trail.last_number() >= 10 {
        return None;
    }
    if !may_add(trail, &added, numbers) {
        return None;
    }
    trail.add(added).ok()
}

/// Whether the clause of the number has these literals.
fn has_lits(trail: &Trail, number: u32, numbers: &[i32]) -> bool {
    if !trail.has_clause(number) {
        return false;
    }
    let lits = trail.clause(number).lits();
    lits.len() == numbers.len() && lits.iter().zip(numbers).all(|(l, n)| *l == lit(*n))
}

/// Makes the call; whether the trail allows it, and gives the number that it should.
fn makes(alloc: Global, trail: &mut Trail, call: Call) -> bool {
    match call {
        Call::Propagate(given) => trail.propagate() == given,
        Call::Decide(number) => decides(trail, lit(number)),
        Call::BackTo(level) => goes_back(trail, level),
        Call::Add(numbers, given) => {
            add(alloc, trail, numbers) == Some(given) && has_lits(trail, given, numbers)
        }
        Call::Remove(number) => removes(trail, number),
    }
}

/// Whether exactly the clauses of these numbers are live.
fn has_clauses(trail: &Trail, live: &[u32]) -> bool {
    (0..10).all(|number| trail.has_clause(number) == live.contains(&number))
}

/// Whether the literal at the position is the wanted one, with its level and its reason.
fn is_entry(trail: &Trail, position: u32, wanted: Set) -> bool
    requires { position < length trail.now.entries }
{
    let set = trail.at(position);
    let (number, level, reason) = match wanted {
        Set::Decided(number, level) => (number, level, None),
        Set::Forced(number, level, clause) => (number, level, Some(clause)),
    };
    set == lit(number) && trail.level_of(set.var) == Some(level) && trail.reason(set.var) == reason
}

/// Whether exactly these literals are set, in this order.
fn has_entries(trail: &Trail, wanted: &[Set]) -> bool {
    if trail.len() as usize != wanted.len() {
        return false;
    }
    for (position, set) in wanted.iter().enumerate() {
        if !is_entry(trail, position as u32, *set) {
            return false;
        }
    }
    true
}

/// Whether the trail is after the call as it should be.
fn is_as_wanted(trail: &Trail, step: &Step) -> bool {
    trail.ready() == step.ready && has_clauses(trail, step.live) && has_entries(trail, step.set)
}

/// Whether each of the calls gives what it should, and leaves the trail as it should be.
fn are_made(alloc: Global, trail: &mut Trail, steps: &[Step]) -> bool {
    for step in steps {
        if !makes(alloc, trail, step.call) || !is_as_wanted(trail, step) {
            return false;
        }
    }
    true
}

/// Whether the formula is small, and each of the calls leaves its trail as it should be.
fn are_made_on(alloc: Global, f: &Formula, steps: &[Step]) -> bool {
    if f.clauses.len() >= 10 {
        return false;
    }
    match Trail::new(alloc, f) {
        Ok(mut trail) => are_made(alloc, &mut trail, steps),
        Err(NoMemory) => false,
    }
}

/// Whether the row has a formula, and each of its calls leaves the trail as it should be.
fn is_passed(alloc: Global, row: &Row) -> bool {
    match formula(alloc, row.vars, row.clauses) {
        Ok(Some(f)) => are_made_on(alloc, &f, row.steps),
        Ok(None) | Err(NoMemory) => false,
    }
}

#[test]
fn each_call_leaves_its_trail(rt: HostRuntime) -> Result<(), Fail> {
    for row in ROWS {
        assert!(rt; is_passed(rt.alloc(), row));
    }
    Ok(())
}
