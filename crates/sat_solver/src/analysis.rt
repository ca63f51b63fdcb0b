ghost use Rattle.std.specs.Prelude.{◌≡◌, ◌+◌, ◌<◌, ◌≤◌, ◌⊎◌, ◌↔◌, Some, IsTrue, IfSome, [], length};
ghost use Rattle.std.specs.Prelude.{IfOk, OnOk};
ghost use Rattle.clause_core.specs.Clause.{VariablesExist};
ghost use Rattle.clause_core.specs.Propagation.{IsFalsified};
ghost use Rattle.sat_trail.specs.Entry.{values_of};
ghost use Rattle.sat_trail.specs.State.{IsNumberUpTo, numbering_of};
ghost use Rattle.sat_solver.specs.inner.Analysis.{IsLearned, IsLowerLevel, Refuted, HasReason};
ghost use Rattle.sat_solver.specs.inner.Gathered.{IsDerivationOf, Gathers, StepsOver, Asserts};

use super::false_lits::{FalseLits, is_current, others_are_lower};
use super::implication::ImpliedLits;
use clause_core::{Clause, Lit, equal_members, lists_have_clauses};
use list_base::{NoMemory, Seq};
use order_propagator::OrderTrail;
use refutation_log::{Chain, Link};
use std::alloc::Global;

/// A clause and the chain of resolutions that derives it.
#[derive(Drop)]
pub struct Derivation {
    /// The resolutions.
    pub chain: Chain,
    /// What they derive.
    pub clause: Clause,
}

/// Derives an asserting clause: resolves the false clause along the trail until one literal of the
/// current level is left, at the first unique implication point, and then resolves those of lower
/// levels away that the others imply.
pub fn derive_asserting(
    alloc: Global,
    trail: &OrderTrail,
    number: u32,
    implied: &mut ImpliedLits,
    lits: &mut FalseLits,
) -> Result<Derivation, NoMemory>
    requires falsified { let values = values_of trail.now.entries in
        IsFalsified (numbering_of trail.now) values number }
    requires above { 0 < trail.now.level }
    requires vars { lits.old.set.vars ≡ trail.now.vars }
    ensures learned { IfOk result (λ d. IsLearned trail.now d.chain d.clause) }
    ensures vars { lits.new.set.vars ≡ trail.now.vars }
{
    // law: what every trail keeps
    trail.is_trail();
    let mut chain = start(alloc, trail, number, lits);
    let mut position = trail.len();
    'resolving: while lits.current > 1 {
        position -= 1;
        step(trail, lits, &mut chain, position)?;
    }
    shorten(trail, implied, lits, &mut chain)?;
    // law: clauses with the same literals are equal
    equal_members();
    derived(alloc, chain, lits.set.as_slice())
}

/// Resolves the literals away that the others imply (Sorensson and Biere 2009).
fn shorten(
    trail: &OrderTrail,
    implied: &mut ImpliedLits,
    lits: &mut FalseLits,
    chain: &mut Chain,
) -> Result<(), NoMemory>
    requires asserts { Asserts trail.now chain.old lits.old }
    ensures asserts { OnOk result (Asserts trail.now chain.new lits.new) }
    ensures vars { lits.new.set.vars ≡ trail.now.vars }
{
    implied.find(trail, lits.set.as_slice())?;
    for lit in implied.as_slice().iter().rev() {
        if exists(trail, *lit) {
            resolve_away(trail, lits, chain, *lit)?;
        }
    }
    Ok(())
}

/// Whether the literal's variable exists.
fn exists(trail: &OrderTrail, lit: Lit) -> bool
    ensures { IsTrue result ↔ IsNumberUpTo trail.now.vars lit.var }
{
    0 < lit.var && lit.var <= trail.vars()
}

/// Resolves the literal away, if it and the others of its reason are of lower levels.
fn resolve_away(
    trail: &OrderTrail,
    lits: &mut FalseLits,
    chain: &mut Chain,
    lit: Lit,
) -> Result<(), NoMemory>
    requires asserts { Asserts trail.now chain.old lits.old }
    requires exists { IsNumberUpTo trail.now.vars lit.var }
    ensures asserts { OnOk result (Asserts trail.now chain.new lits.new) }
    ensures vars { lits.new.set.vars ≡ trail.now.vars }
{
    // law: what every trail keeps
    trail.is_trail();
    if !lits.set.has(lit) || is_current(trail, lit) {
        return Ok(());
    }
    let Some(reason) = trail.reason(lit.var) else {
        return Ok(());
    };
    let clause = trail.clause(reason);
    if !others_are_lower(trail, clause.lits(), lit.negation()) {
        return Ok(());
    }
    // law: each list of literals has a clause
    lists_have_clauses();
    lits.resolve(trail, lit, clause.lits());
    chain.links.push(Link {
        pivot: lit,
        clause: reason,
    })?;
    Ok(())
}

/// Resolves the false clause of level 0 along the whole trail, down to the empty clause.
pub fn derive_empty(
    alloc: Global,
    trail: &OrderTrail,
    number: u32,
    lits: &mut FalseLits,
) -> Result<Derivation, NoMemory>
    requires falsified { let values = values_of trail.now.entries in
        IsFalsified (numbering_of trail.now) values number }
    requires at_0 { trail.now.level ≡ 0 }
    requires vars { lits.old.set.vars ≡ trail.now.vars }
    ensures refuted { IfOk result (λ d. Refuted trail.now number d.chain d.clause) }
    ensures vars { lits.new.set.vars ≡ trail.now.vars }
{
    // law: what every trail keeps
    trail.is_trail();
    let mut chain = start(alloc, trail, number, lits);
    let mut position = trail.len();
    while position > 0 {
        position -= 1;
        step(trail, lits, &mut chain, position)?;
    }
    // law: clauses with the same literals are equal
    equal_members();
    derived(alloc, chain, lits.set.as_slice())
}

/// The clause of the literals, with the chain that derives it.
fn derived(alloc: Global, chain: Chain, lits: &[Lit]) -> Result<Derivation, NoMemory>
    ensures { IfOk result (IsDerivationOf chain lits.now) }
{
    let clause = Clause::of(alloc, lits)?;
    Ok(Derivation { chain, clause })
}

/// The literals of the false clause, before the first resolution.
fn start(alloc: Global, trail: &OrderTrail, number: u32, lits: &mut FalseLits) -> Chain
    requires falsified { let values = values_of trail.now.entries in
        IsFalsified (numbering_of trail.now) values number }
    requires vars { lits.old.set.vars ≡ trail.now.vars }
    ensures gathers { Gathers trail.now number result lits.new (length trail.now.entries) }
    ensures none { result.links ≡ [] }
{
    lits.clear();
    lits.insert_all(trail, trail.clause(number).lits());
    Chain {
        first: number,
        links: Seq::new(alloc),
    }
}

/// Resolves on the literal at the position, if its negation is among the literals.
fn step(
    trail: &OrderTrail,
    lits: &mut FalseLits,
    chain: &mut Chain,
    position: u32,
) -> Result<(), NoMemory>
    requires gathers { Gathers trail.now chain.old.first chain.old lits.old (position + 1) }
    requires reason { HasReason trail.now lits.old.set.lits position }
    ensures steps { OnOk result
        (StepsOver trail.now chain.old chain.new lits.old lits.new position) }
    ensures vars { lits.new.set.vars ≡ trail.now.vars }
{
    // law: what every trail keeps
    trail.is_trail();
    let lit = trail.at(position);
    let pivot = lit.negation();
    if !lits.set.has(pivot) {
        return Ok(());
    }
    if let Some(reason) = trail.reason(lit.var) {
        // law: each list of literals has a clause
        lists_have_clauses();
        lits.resolve(trail, pivot, trail.clause(reason).lits());
        chain.links.push(Link {
            pivot,
            clause: reason,
        })?;
    }
    Ok(())
}

/// The highest level below the current one at which a literal of the clause was set, or 0.
pub fn lower_level(trail: &OrderTrail, clause: &[Lit]) -> u32
    requires exist { VariablesExist trail.now.vars clause.now }
    requires above { 0 < trail.now.level }
    ensures { IsLowerLevel trail.now clause.now result }
{
    let current = trail.level();
    let mut lower = 0;
    for lit in clause {
        lower = raised(lower, trail.level_of(lit.var), current);
    }
    lower
}

/// The level, if it is higher than what was found so far and below the current one.
fn raised(lower: u32, level: Option<u32>, current: u32) -> u32
    requires { lower < current }
    ensures kept { lower ≤ result }
    ensures below { result < current }
    ensures taken { (result ≡ lower) ⊎ (level ≡ Some result) }
    ensures highest { IfSome level (λ n. n < current → n ≤ result) }
{
    match level {
        Some(level) if lower < level && level < current => level,
        _ => lower,
    }
}
