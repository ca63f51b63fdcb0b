use super::protocols::{alone, protocol};
use bspl_types::Admitted;
use clause_encoding::liveness_clauses_are_few;
use log_checker::Reject;
use protocol_check::check_liveness;
use refutation_log::read_log;
use std::alloc::Global;
use std::test::Fail;

/// A produces the key and sends it to B.
const PING: &[u8] = b"Ping { roles A, B parameters out ID key A -> B: ping[out ID] }";

/// The text of a log, and the answer.
struct Row<'a> {
    text: &'a [u8],
    answer: Result<(), Reject>,
}

/// Logs for the liveness formula of Ping, and the answers. Its clauses 5 to 7 say that the message
/// is sent, that a message that is sent binds the key, and that the key is unbound.
const ROWS: &[Row] = &[
    Row {
        text: b"log 1 liveness\nstep 5 1 6 -3 7\nend\n",
        answer: Ok(()),
    },
    Row {
        text: b"log 1 liveness\nstep 5 1 6 3 7\nend\n",
        answer: Err(Reject::NoPivot { step: 1, link: 2 }),
    },
    Row {
        text: b"log 1 liveness\nstep 9\nend\n",
        answer: Err(Reject::NoClause { step: 1 }),
    },
    Row {
        text: b"log 1 liveness\nend\n",
        answer: Err(Reject::NotEmpty),
    },
    Row {
        text: b"log 2 liveness\ndrop 1 1\nend\n",
        answer: Err(Reject::NoDrop { after: 0, item: 2 }),
    },
];

/// The answer for the text of a short log.
fn answer(alloc: Global, protocol: &Admitted, text: &[u8]) -> Option<Result<(), Reject>> {
    // law: a liveness formula has few clauses
    liveness_clauses_are_few();
    let (_, log) = read_log(alloc, text).ok()?;
    if log.steps.len() < 100 {
        Some(check_liveness(alloc, protocol, &log))
    } else {
        None
    }
}

#[test]
fn logs_of_the_liveness_of_ping(rt: HostRuntime) -> Result<(), Fail> {
    let pings = alone(rt.alloc(), protocol(rt.alloc(), PING, b"Ping")?)?;
    for row in ROWS {
        assert!(rt; answer(rt.alloc(), pings.at(0), row.text) == Some(row.answer));
    }
    Ok(())
}
