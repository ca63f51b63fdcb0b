ghost use Rattle.std.specs.Prelude.{◌≡◌, ◌+◌, ◌^◌, ◌<◌, ◌++◌, IfOk, OnOk};
ghost use Rattle.clause_core.specs.Written.{AppendsClauses};
ghost use Rattle.circuit_clauses.specs.Asserted.{asserted, asserted_count};
ghost use Rattle.circuit_clauses.specs.Asserted.{part_clauses, part_count, part_lits};
ghost use Rattle.circuit_clauses.specs.Condition.{condition_of};

use super::circuit::Circuit;
use super::counts::asserted_width;
use clause_core::{ClauseList, Lit, positive, push_clause};
use list_base::{NoMemory, Seq};
use std::alloc::Global;

/// Appends the clauses that the condition is met unless a literal of the guard is true. Further
/// variables begin with `first`; the first one that is left is handed back.
#[cycle(assert)]
pub fn push_asserted(
    clauses: &mut ClauseList,
    alloc: Global,
    first: u32,
    guard: &[Lit],
    c: &Circuit,
) -> Result<u32, NoMemory>
    requires { first + asserted_count (condition_of c.now) < 2 ^ 32 }
    ensures clauses { OnOk result (AppendsClauses clauses.old clauses.new
        (asserted first guard.now (condition_of c.now))) }
    ensures next { IfOk result (λ next. next ≡ first + asserted_count (condition_of c.now)) }
{
    match c {
        Circuit::Literal(lit) => {
            let mut lits = Seq::from_slice(alloc, guard)?;
            lits.push(*lit)?;
            push_clause(clauses, alloc, lits.as_slice())?;
            Ok(first)
        }
        Circuit::Both(left, right) => {
            let next = push_asserted(clauses, alloc, first, guard, left)?;
            push_asserted(clauses, alloc, next, guard, right)
        }
        Circuit::Either(left, right) => {
            let mut lits = Seq::from_slice(alloc, guard)?;
            let next = push_part_lits(&mut lits, first, left)?;
            push_part_lits(&mut lits, next, right)?;
            push_clause(clauses, alloc, lits.as_slice())?;
            push_part(clauses, alloc, first, left)?;
            push_part(clauses, alloc, next, right)
        }
        Circuit::Always => Ok(first),
        Circuit::Never => {
            push_clause(clauses, alloc, guard)?;
            Ok(first)
        }
    }
}

/// Appends the clauses that a part of a disjunction is met where its variable is true.
#[cycle(assert)]
fn push_part(
    clauses: &mut ClauseList,
    alloc: Global,
    first: u32,
    c: &Circuit,
) -> Result<u32, NoMemory>
    requires { first + part_count (condition_of c.now) < 2 ^ 32 }
    ensures clauses { OnOk result (AppendsClauses clauses.old clauses.new
        (part_clauses first (condition_of c.now))) }
    ensures next { IfOk result (λ next. next ≡ first + part_count (condition_of c.now)) }
{
    match c {
        Circuit::Both(left, right) => {
            let guard = [positive(first).negation()];
            let next = push_asserted(clauses, alloc, first + 1, &guard, left)?;
            push_asserted(clauses, alloc, next, &guard, right)
        }
        Circuit::Either(left, right) => {
            let next = push_part(clauses, alloc, first, left)?;
            push_part(clauses, alloc, next, right)
        }
        Circuit::Always => Ok(first + 1),
        Circuit::Literal(_) | Circuit::Never => Ok(first),
    }
}

/// Appends the literals by which a part stands in a disjunction.
fn push_part_lits(lits: &mut Seq<Lit>, first: u32, c: &Circuit) -> Result<u32, NoMemory>
    requires { first + part_count (condition_of c.now) < 2 ^ 32 }
    ensures lits { OnOk result (lits.new ≡ lits.old ++ part_lits first (condition_of c.now)) }
    ensures next { IfOk result (λ next. next ≡ first + part_count (condition_of c.now)) }
{
    match c {
        Circuit::Literal(lit) => {
            lits.push(*lit)?;
            Ok(first)
        }
        Circuit::Both(left, right) => {
            lits.push(positive(first))?;
            Ok(first + 1 + asserted_width(left) + asserted_width(right))
        }
        Circuit::Either(left, right) => {
            let next = push_part_lits(lits, first, left)?;
            push_part_lits(lits, next, right)
        }
        Circuit::Always => {
            lits.push(positive(first))?;
            Ok(first + 1)
        }
        Circuit::Never => Ok(first),
    }
}
