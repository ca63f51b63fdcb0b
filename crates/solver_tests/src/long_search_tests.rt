use clause_core::{Assignment, Clause, ClauseList, Formula, Lit};
use list_base::{NoMemory, Seq};
use log_checker::check_log;
use refutation_log::Log;
use sat_solver::{Outcome, SearchStats, solve_counted};
use std::alloc::Global;
use std::test::Fail;

/// More conflicts than any of these searches has.
const BUDGET: u32 = 10_000;

/// So many bits, and the step in which they are taken for the second sum of all of them. Their
/// number is prime, so each is taken once. The search has more conflicts than the last number says:
/// after 1000 the solver decides by another rule and restarts again and again.
struct TwoSums {
    bits: u32,
    step: u32,
    conflicts: u32,
}

const TWO_SUMS: &[TwoSums] = &[
    TwoSums {
        bits: 17,
        step: 3,
        conflicts: 1000,
    },
    TwoSums {
        bits: 19,
        step: 4,
        conflicts: 5000,
    },
];

/// So many bits in a circle, and how far the other two bits of a sum of three are from its first;
/// and as many conflicts.
struct OddSums {
    bits: u32,
    second: u32,
    third: u32,
    conflicts: u32,
}

const ODD_SUMS: OddSums = OddSums {
    bits: 106,
    second: 5,
    third: 23,
    conflicts: 1000,
};

/// The bit is one.
fn one(var: u32) -> Lit {
    Lit {
        var,
        positive: true,
    }
}

/// Appends that the sum of the three is odd.
fn add_odd(alloc: Global, clauses: &mut ClauseList, lits: [Lit; 3]) -> Result<(), NoMemory> {
    let [a, b, c] = lits;
    for odd in [
        [a.negation(), b.negation(), c],
        [a.negation(), b, c.negation()],
        [a, b.negation(), c.negation()],
        [a, b, c],
    ] {
        clauses.push(Clause::of(alloc, &odd)?)?;
    }
    Ok(())
}

/// Appends that the sum of all bits is odd, or that it is even. The bits are taken in such steps,
/// and the variables of the sums so far come after the last one.
fn add_sum(
    alloc: Global,
    clauses: &mut ClauseList,
    bits: u32,
    step: u32,
    last: u32,
    odd: bool,
) -> Result<(), NoMemory> {
    let mut so_far = 1;
    for taken in 1..bits {
        let bit = taken.saturating_mul(step) % bits + 1;
        let next = last.saturating_add(taken);
        add_odd(
            alloc,
            clauses,
            [one(so_far), one(bit), one(next).negation()],
        )?;
        so_far = next;
    }
    let sum = Lit {
        var: so_far,
        positive: odd,
    };
    clauses.push(Clause::of(alloc, &[sum])?)
}

/// One sum of all bits is even and another one is odd, which cannot be.
fn two_sums(alloc: Global, row: &TwoSums) -> Result<Option<Formula>, NoMemory> {
    let mut clauses = Seq::new(alloc);
    let last = row.bits.saturating_mul(2).saturating_sub(1);
    add_sum(alloc, &mut clauses, row.bits, 1, row.bits, false)?;
    add_sum(alloc, &mut clauses, row.bits, row.step, last, true)?;
    Ok(Formula::of(last.saturating_add(row.bits).saturating_sub(1), clauses))
}

/// Each of the sums of three bits is odd, as it is if all bits are one.
fn odd_sums(alloc: Global, row: &OddSums) -> Result<Option<Formula>, NoMemory> {
    let mut clauses = Seq::new(alloc);
    for first in 0..row.bits {
        let second = first.saturating_add(row.second) % row.bits;
        let third = first.saturating_add(row.third) % row.bits;
        add_odd(
            alloc,
            &mut clauses,
            [one(first + 1), one(second + 1), one(third + 1)],
        )?;
    }
    Ok(Formula::of(row.bits, clauses))
}

/// Whether each clause of the formula has a literal that the assignment makes true.
fn is_model(f: &Formula, assignment: &Assignment) -> bool {
    f.clauses.as_slice().iter().all(|c| c.is_over(assignment.vars()) && assignment.satisfies(c))
}

/// Whether the checker accepts the log.
fn is_accepted(alloc: Global, f: &Formula, log: &Log) -> bool {
    f.clauses.len() < 1000 && log.steps.len() <= BUDGET as usize && check_log(alloc, f, log).is_ok()
}

/// Whether the answer is a model if there is one, and else a log that is accepted.
fn is_right(alloc: Global, f: &Formula, outcome: &Outcome, has_model: bool) -> bool {
    match outcome {
        Outcome::Sat(assignment) => has_model && is_model(f, assignment),
        Outcome::Unsat(log) => !has_model && is_accepted(alloc, f, log),
        Outcome::Budget(_) => false,
    }
}

/// Whether the formula is answered as it should be, after more than so many conflicts.
fn is_decided(
    alloc: Global,
    f: &Formula,
    conflicts: u32,
    has_model: bool,
) -> Result<bool, NoMemory> {
    if f.clauses.len() >= 1000 {
        return Ok(false);
    }
    let mut stats = SearchStats::none();
    let outcome = solve_counted(alloc, f, BUDGET, &mut stats)?;
    Ok(stats.conflicts > conflicts && is_right(alloc, f, &outcome, has_model))
}

/// Whether the two sums are found not to be, after as many conflicts.
fn are_refuted(alloc: Global, row: &TwoSums) -> Result<bool, NoMemory> {
    match two_sums(alloc, row)? {
        Some(f) => is_decided(alloc, &f, row.conflicts, false),
        None => Ok(false),
    }
}

/// Whether bits with odd sums are found, after as many conflicts.
fn are_found(alloc: Global, row: &OddSums) -> Result<bool, NoMemory> {
    match odd_sums(alloc, row)? {
        Some(f) => is_decided(alloc, &f, row.conflicts, true),
        None => Ok(false),
    }
}

#[test]
fn a_sum_is_not_even_and_odd(rt: HostRuntime) -> Result<(), Fail> {
    for row in TWO_SUMS {
        assert!(rt; are_refuted(rt.alloc(), row) == Ok(true));
    }
    Ok(())
}

#[test]
fn bits_with_odd_sums_are_found(rt: HostRuntime) -> Result<(), Fail> {
    assert!(rt; are_found(rt.alloc(), &ODD_SUMS) == Ok(true));
    Ok(())
}
