ghost use Rattle.refutation_log.specs.LogText.{LogInRange};

use super::formulas::lit;
use list_base::NoMemory;
use refutation_log::{Chain, Kind, Link, Log, read_log, write_log};
use std::alloc::Global;
use std::test::Fail;

/// A step: its first clause, and its links, each a pivot and a clause.
struct Step {
    first: u32,
    links: &'static [(i32, u32)],
}

/// The clauses that are removed after so many steps.
struct Removed {
    after: u32,
    clauses: &'static [u32],
}

/// The text of a log, and the log.
struct Row {
    text: &'static [u8],
    kind: Kind,
    steps: &'static [Step],
    removals: &'static [Removed],
}

const ROWS: &[Row] = &[
    Row {
        text: b"log 1 safety\nend\n",
        kind: Kind::Safety,
        steps: &[],
        removals: &[],
    },
    Row {
        text: b"log 1 liveness\nstep 5 1 6 -3 7\nstep 1000000000\nend\n",
        kind: Kind::Liveness,
        steps: &[
            Step {
                first: 5,
                links: &[(1, 6), (-3, 7)],
            },
            Step {
                first: 1000000000,
                links: &[],
            },
        ],
        removals: &[],
    },
    Row {
        text: b"log 1 safety\nstep 5 1 6 -3 7\nend\n",
        kind: Kind::Safety,
        steps: &[Step {
            first: 5,
            links: &[(1, 6), (-3, 7)],
        }],
        removals: &[],
    },
    Row {
        text: b"log 2 safety\ndrop 1 2\ndrop 3\nstep 5 1 6\ndrop 8 1000000000\nend\n",
        kind: Kind::Safety,
        steps: &[Step {
            first: 5,
            links: &[(1, 6)],
        }],
        removals: &[
            Removed {
                after: 0,
                clauses: &[1, 2],
            },
            Removed {
                after: 0,
                clauses: &[3],
            },
            Removed {
                after: 1,
                clauses: &[8, 1000000000],
            },
        ],
    },
    Row {
        text: b"log 2 safety\ndrop 1 2\nstep 5\ndrop 3\ndrop 4 8\nend\n",
        kind: Kind::Safety,
        steps: &[Step {
            first: 5,
            links: &[],
        }],
        removals: &[
            Removed {
                after: 0,
                clauses: &[1, 2],
            },
            Removed {
                after: 1,
                clauses: &[3],
            },
            Removed {
                after: 1,
                clauses: &[4, 8],
            },
        ],
    },
];

/// Whether the link has this pivot and this clause.
fn is_link(link: &Link, (pivot, clause): &(i32, u32)) -> bool {
    link.pivot == lit(*pivot) && link.clause == *clause
}

/// Whether the chain begins with the clause and has these links, in this order.
fn is_step(chain: &Chain, step: &Step) -> bool {
    let given = chain.links.as_slice();
    chain.first == step.first
        && given.len() == step.links.len()
        && given
            .iter()
            .zip(step.links)
            .all(|(link, wanted)| is_link(link, wanted))
}

/// Whether the log has these steps, in this order.
fn has_steps(log: &Log, steps: &[Step]) -> bool {
    let given = log.steps.as_slice();
    given.len() == steps.len()
        && given
            .iter()
            .zip(steps)
            .all(|(chain, step)| is_step(chain, step))
}

/// Whether the log has these removals, in this order.
fn has_removals(log: &Log, removals: &[Removed]) -> bool {
    let given = log.removals.as_slice();
    given.len() == removals.len()
        && given.iter().zip(removals).all(|(removal, wanted)| {
            removal.after == wanted.after && removal.clauses.as_slice() == wanted.clauses
        })
}

/// Whether the log is written as this text.
fn is_written(alloc: Global, kind: Kind, log: &Log, text: &[u8]) -> bool
    requires { LogInRange log.now }
{
    match write_log(alloc, kind, log) {
        Ok(written) => written.as_slice() == text,
        Err(NoMemory) => false,
    }
}

/// Whether the text is read as the row says, and written as it was.
fn is_read(alloc: Global, row: &Row) -> bool {
    match read_log(alloc, row.text) {
        Ok((read, log)) => {
            read == row.kind
                && has_steps(&log, row.steps)
                && has_removals(&log, row.removals)
                && is_written(alloc, read, &log, row.text)
        }
        Err(_) => false,
    }
}

#[test]
fn logs_are_read_and_written(rt: HostRuntime) -> Result<(), Fail> {
    for row in ROWS {
        assert!(rt; is_read(rt.alloc(), row));
    }
    Ok(())
}
