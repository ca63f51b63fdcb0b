use super::formulas::formula_of;
use Answer::{Budget, Sat, Unsat};
use clause_core::Formula;
use list_base::NoMemory;
use sat_solver::{Outcome, solve};
use std::alloc::Global;
use std::test::Fail;

/// The kind of an answer.
#[derive(Clone, Copy, PartialEq, Eq)]
enum Answer {
    Sat,
    Unsat,
    Budget,
}

/// A formula, whose clauses are each ended by 0, and how it is answered.
struct Row {
    answer: Answer,
    /// The variables of a model or the steps of a log, if their count is wanted.
    count: Option<usize>,
    budget: u32,
    vars: u32,
    clauses: &'static str,
}

const ROWS: &[Row] = &[
    Row {
        answer: Budget,
        count: Some(1),
        budget: 1,
        vars: 2,
        clauses: "1 2 0 -1 2 0 1 -2 0 -1 -2 0",
    },
    Row {
        answer: Unsat,
        count: None,
        budget: 9,
        vars: 2,
        clauses: "1 2 0 -1 2 0 1 -2 0 -1 -2 0",
    },
    Row {
        answer: Sat,
        count: Some(2),
        budget: 9,
        vars: 2,
        clauses: "1 2 0",
    },
    Row {
        answer: Sat,
        count: Some(3),
        budget: 9,
        vars: 3,
        clauses: "",
    },
    Row {
        answer: Unsat,
        count: Some(0),
        budget: 9,
        vars: 2,
        clauses: "1 2 0 0",
    },
    Row {
        answer: Unsat,
        count: None,
        budget: 729,
        vars: 1,
        clauses: "1 0 -1 0",
    },
    Row {
        answer: Unsat,
        count: None,
        budget: 729,
        vars: 0,
        clauses: "0",
    },
    Row {
        answer: Unsat,
        count: None,
        budget: 729,
        vars: 2,
        clauses: "1 0 -1 2 0 -2 0",
    },
    Row {
        answer: Unsat,
        count: None,
        budget: 729,
        vars: 2,
        clauses: "1 2 0 1 2 0 -1 0 -2 0",
    },
    Row {
        answer: Unsat,
        count: None,
        budget: 729,
        vars: 3,
        clauses: "1 2 0 -1 -2 0 2 3 0 -2 -3 0 1 3 0 -1 -3 0",
    },
    // three pigeons in two holes; the variable of pigeon p and hole h is 2 (p - 1) + h
    Row {
        answer: Unsat,
        count: None,
        budget: 729,
        vars: 6,
        clauses: "1 2 0 3 4 0 5 6 0 -1 -3 0 -1 -5 0 -3 -5 0 -2 -4 0 -2 -6 0 -4 -6 0",
    },
    // four pigeons in three holes
    Row {
        answer: Unsat,
        count: None,
        budget: 729,
        vars: 12,
        clauses: "1 2 3 0 4 5 6 0 7 8 9 0 10 11 12 0 \
        -1 -4 0 -1 -7 0 -1 -10 0 -4 -7 0 -4 -10 0 -7 -10 0 \
        -2 -5 0 -2 -8 0 -2 -11 0 -5 -8 0 -5 -11 0 -8 -11 0 \
        -3 -6 0 -3 -9 0 -3 -12 0 -6 -9 0 -6 -12 0 -9 -12 0",
    },
    // an odd and an even parity of the same three variables
    Row {
        answer: Unsat,
        count: None,
        budget: 729,
        vars: 3,
        clauses: "1 2 3 0 1 -2 -3 0 -1 2 -3 0 -1 -2 3 0 -1 -2 -3 0 -1 2 3 0 1 -2 3 0 1 2 -3 0",
    },
    Row {
        answer: Sat,
        count: None,
        budget: 729,
        vars: 0,
        clauses: "",
    },
    Row {
        answer: Sat,
        count: None,
        budget: 729,
        vars: 2,
        clauses: "1 0 -2 0",
    },
    Row {
        answer: Sat,
        count: None,
        budget: 729,
        vars: 1,
        clauses: "1 -1 0",
    },
    Row {
        answer: Sat,
        count: None,
        budget: 729,
        vars: 2,
        clauses: "1 2 0 1 2 0 1 2 0",
    },
    Row {
        answer: Sat,
        count: None,
        budget: 729,
        vars: 3,
        clauses: "1 2 0 -1 -2 0 2 3 0 -2 -3 0",
    },
    Row {
        answer: Sat,
        count: None,
        budget: 729,
        vars: 2,
        clauses: "-1 2 0 1 -2 0 -1 -2 0",
    },
    Row {
        answer: Sat,
        count: None,
        budget: 729,
        vars: 4,
        clauses: "1 2 0 3 4 0 -1 -3 0 -2 -4 0",
    },
    Row {
        answer: Sat,
        count: None,
        budget: 729,
        vars: 5,
        clauses: "1 2 3 0 -1 4 0 -2 4 0 -3 4 0 -4 5 0",
    },
    Row {
        answer: Sat,
        count: None,
        budget: 729,
        vars: 3,
        clauses: "1 0 -1 2 0 -2 3 0",
    },
];

/// The kind of the answer, with its count.
fn counted(outcome: &Outcome) -> (Answer, usize) {
    match outcome {
        Outcome::Sat(assignment) => (Answer::Sat, assignment.vars() as usize),
        Outcome::Unsat(log) => (Answer::Unsat, log.steps.len()),
        Outcome::Budget(log) => (Answer::Budget, log.steps.len()),
    }
}

/// The kind of the answer, with its count; nothing if the row is too long.
fn solved(alloc: Global, f: &Formula, budget: u32) -> Result<Option<(Answer, usize)>, NoMemory> {
    if budget == 0 || budget > 1000 || f.clauses.len() > 1000 {
        return Ok(None);
    }
    let outcome = solve(alloc, f, budget)?;
    Ok(Some(counted(&outcome)))
}

/// Whether the formula is answered as the row says, with its count if one is wanted.
fn is_answered(alloc: Global, f: &Formula, row: &Row) -> bool {
    match solved(alloc, f, row.budget) {
        Ok(Some((given, count))) => { given == row.answer && count == row.count.unwrap_or(count) }
        Ok(None) | Err(NoMemory) => false,
    }
}

/// Whether the row is a formula, and answered as it should be.
fn is_passed(alloc: Global, row: &Row) -> bool {
    match formula_of(alloc, row.vars, row.clauses) {
        Ok(Some(f)) => is_answered(alloc, &f, row),
        Ok(None) | Err(NoMemory) => false,
    }
}

#[test]
fn answers_each_formula(rt: HostRuntime) -> Result<(), Fail> {
    for row in ROWS {
        assert!(rt; is_passed(rt.alloc(), row));
    }
    Ok(())
}
