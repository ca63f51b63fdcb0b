use super::formulas::{clause, formula, lit};
use clause_core::{Assignment, Clause, ResolveRefusal, resolve};
use list_base::{NoMemory, TryClone};
use std::alloc::Global;
use std::test::Fail;

/// Literals as they are given, as their clause has them, and one that it has not.
struct Ascending {
    given: &'static [i32],
    lits: &'static [i32],
    absent: i32,
}

const CLAUSES: &[Ascending] = &[
    Ascending {
        given: &[3, -1, 2, -1, 1, 3],
        lits: &[-1, 1, 2, 3],
        absent: -2,
    },
    Ascending {
        given: &[-2],
        lits: &[-2],
        absent: 2,
    },
    Ascending {
        given: &[],
        lits: &[],
        absent: 1,
    },
];

/// Two clauses, a literal of the first, and the resolvent on it, if there is one.
struct Resolution {
    first: &'static [i32],
    pivot: i32,
    second: &'static [i32],
    resolvent: Option<&'static [i32]>,
}

const RESOLUTIONS: &[Resolution] = &[
    Resolution {
        first: &[1, 2],
        pivot: 1,
        second: &[-1, 3],
        resolvent: Some(&[2, 3]),
    },
    Resolution {
        first: &[1, 2],
        pivot: 3,
        second: &[-1, 3],
        resolvent: None,
    },
    Resolution {
        first: &[1, 2],
        pivot: -1,
        second: &[-1, 3],
        resolvent: None,
    },
    Resolution {
        first: &[1, 2],
        pivot: 2,
        second: &[-1, 3],
        resolvent: None,
    },
    Resolution {
        first: &[1, 2],
        pivot: -2,
        second: &[-1, 3],
        resolvent: None,
    },
    Resolution {
        first: &[-1],
        pivot: -1,
        second: &[1],
        resolvent: Some(&[]),
    },
    Resolution {
        first: &[-2, 1, 4, 5],
        pivot: 1,
        second: &[-2, -1, 3, 5],
        resolvent: Some(&[-2, 3, 4, 5]),
    },
];

/// A clause, and whether the assignment of true to the first of three variables alone satisfies it.
struct Satisfied {
    lits: &'static [i32],
    satisfied: bool,
}

const SATISFIED: &[Satisfied] = &[
    Satisfied {
        lits: &[1, 2],
        satisfied: true,
    },
    Satisfied {
        lits: &[-1, 3],
        satisfied: false,
    },
    Satisfied {
        lits: &[-3, 2],
        satisfied: true,
    },
];

/// Whether the clause has these literals, in this order.
fn has_lits(c: &Clause, numbers: &[i32]) -> bool {
    c.lits().len() == numbers.len() && c.lits().iter().zip(numbers).all(|(l, n)| *l == lit(*n))
}

/// Whether a copy of the clause has these literals, in this order.
fn is_copied(c: &Clause, numbers: &[i32]) -> bool {
    match c.try_clone() {
        Ok(copy) => has_lits(&copy, numbers),
        Err(NoMemory) => false,
    }
}

/// Whether the clause has the row's literals, in their order, and no other.
fn is_as_given(c: &Clause, row: &Ascending) -> bool {
    has_lits(c, row.lits)
        && is_copied(c, row.lits)
        && row.given.iter().all(|number| c.has(lit(*number)))
        && !c.has(lit(row.absent))
}

/// Whether the row's literals make their clause.
fn is_clause(alloc: Global, row: &Ascending) -> bool {
    match clause(alloc, row.given) {
        Ok(c) => is_as_given(&c, row),
        Err(NoMemory) => false,
    }
}

#[test]
fn clauses_ascend_without_doubles(rt: HostRuntime) -> Result<(), Fail> {
    for row in CLAUSES {
        assert!(rt; is_clause(rt.alloc(), row));
    }
    Ok(())
}

/// Whether the clauses have the row's resolvent, or none if none is wanted.
fn is_resolvent(alloc: Global, c: &Clause, d: &Clause, row: &Resolution) -> bool {
    match (resolve(alloc, c, lit(row.pivot), d), row.resolvent) {
        (Ok(given), Some(numbers)) => has_lits(&given, numbers),
        (Err(refusal), None) => refusal == ResolveRefusal::NoPivot,
        (_, _) => false,
    }
}

/// Whether the row's clauses are resolved as they should be.
fn is_resolved(alloc: Global, row: &Resolution) -> Result<bool, NoMemory> {
    let c = clause(alloc, row.first)?;
    let d = clause(alloc, row.second)?;
    Ok(is_resolvent(alloc, &c, &d, row))
}

#[test]
fn resolution_takes_the_pivot_out(rt: HostRuntime) -> Result<(), Fail> {
    for row in RESOLUTIONS {
        assert!(rt; is_resolved(rt.alloc(), row) == Ok(true));
    }
    Ok(())
}

/// Whether the values are those of three variables, of which the first is true and the last not.
fn are_values(values: &Assignment) -> bool {
    values.vars() == 3 && values.value(1) && !values.value(3)
}

/// Whether the values satisfy the row's clause exactly if they should.
fn is_satisfied(alloc: Global, values: &Assignment, row: &Satisfied) -> bool {
    match clause(alloc, row.lits) {
        Ok(c) => values.vars() == 3 && c.is_over(3) && values.satisfies(&c) == row.satisfied,
        Err(NoMemory) => false,
    }
}

/// Whether the values satisfy the clauses that they should, and no other.
fn are_satisfied(alloc: Global) -> Result<bool, NoMemory> {
    let values = Assignment::of(alloc, &[true, false, false])?;
    Ok(
        are_values(&values)
            && SATISFIED
                .iter()
                .all(|row| is_satisfied(alloc, &values, row)),
    )
}

#[test]
fn assignments_satisfy(rt: HostRuntime) -> Result<(), Fail> {
    assert!(rt; are_satisfied(rt.alloc()) == Ok(true));
    Ok(())
}

/// Whether there is a formula over these variables of a clause of the third variable.
fn is_formula(alloc: Global, vars: u32) -> Result<bool, NoMemory> {
    match formula(alloc, vars, &[&[-2, 3]])? {
        Some(f) => Ok(f.vars == vars && f.clauses.len() == 1),
        None => Ok(false),
    }
}

#[test]
fn formulas_have_their_variables(rt: HostRuntime) -> Result<(), Fail> {
    for (vars, fits) in [(2, false), (3, true)] {
        assert!(rt; is_formula(rt.alloc(), vars) == Ok(fits));
    }
    Ok(())
}
