use super::formulas::{formula, lit};
use clause_core::Formula;
use list_base::{NoMemory, NumberList, Seq};
use log_checker::{Reject, check_log};
use refutation_log::{Chain, Link, Log};
use std::alloc::Global;
use std::test::Fail;

/// What would hold of an exchange of one message that gets stuck: 1 it is sent, 2 it is received,
/// 3 its key is unbound, 4 it is sent before it is received.
const LIVENESS_OF_PING: &[&[i32]] = &[
    &[-1, 2, 4],
    &[1, -2, -4],
    &[-2, 4],
    &[-1, 2],
    &[1],
    &[-1, -3],
    &[3],
];

/// The links of a step.
const LINKS: &[(i32, u32)] = &[(1, 6), (-3, 7)];

/// A log of a removal and a step, and the answer.
struct Row {
    removed: u32,
    first: u32,
    answer: Result<(), Reject>,
}

const ROWS: &[Row] = &[
    Row {
        removed: 1,
        first: 5,
        answer: Ok(()),
    },
    Row {
        removed: 1,
        first: 0,
        answer: Err(Reject::NoClause { step: 1 }),
    },
    Row {
        removed: 0,
        first: 5,
        answer: Err(Reject::NoDrop { after: 0, item: 1 }),
    },
];

/// A step of the first clause and the links, each a pivot and a clause.
fn step(alloc: Global, first: u32, links: &[(i32, u32)]) -> Result<Chain, NoMemory> {
    let mut chain = Seq::new(alloc);
    for (pivot, clause) in links {
        chain.push(Link {
            pivot: lit(*pivot),
            clause: *clause,
        })?;
    }
    Ok(Chain {
        first,
        links: chain,
    })
}

/// The answer for a small log.
fn answer(alloc: Global, f: &Formula, log: &Log) -> Option<Result<(), Reject>> {
    if f.clauses.len() < 100 && log.steps.len() < 100 {
        Some(check_log(alloc, f, log))
    } else {
        None
    }
}

/// Adds the removal of a clause to the log.
fn remove(alloc: Global, log: &mut Log, removed: u32) -> Result<(), NoMemory> {
    log.remove(NumberList::from_slice(alloc, &[removed])?)
}

/// Adds the step of the first clause to the log.
fn add_step(alloc: Global, log: &mut Log, first: u32) -> Result<(), NoMemory> {
    log.push(step(alloc, first, LINKS)?)
}

/// The log of a step, before which a clause is removed.
fn log_of(alloc: Global, removed: u32, first: u32) -> Result<Log, NoMemory> {
    let mut log = Log::plain(alloc, Seq::new(alloc));
    remove(alloc, &mut log, removed)?;
    add_step(alloc, &mut log, first)?;
    Ok(log)
}

/// Whether the row's log is answered as it should be.
fn is_answered(alloc: Global, f: &Formula, row: &Row) -> bool {
    match log_of(alloc, row.removed, row.first) {
        Ok(log) => answer(alloc, f, &log) == Some(row.answer),
        Err(NoMemory) => false,
    }
}

/// Whether the row's log is answered as it should be for the liveness of ping.
fn is_passed(alloc: Global, row: &Row) -> bool {
    match formula(alloc, 4, LIVENESS_OF_PING) {
        Ok(Some(f)) => is_answered(alloc, &f, row),
        Ok(None) | Err(NoMemory) => false,
    }
}

/// No text of a log has a clause of the number 0.
#[test]
fn no_clause_has_the_number_0(rt: HostRuntime) -> Result<(), Fail> {
    for row in ROWS {
        assert!(rt; is_passed(rt.alloc(), row));
    }
    Ok(())
}
