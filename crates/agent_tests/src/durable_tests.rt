use super::durable_fixtures::{Answer, ask, receive, start, tell};
use super::fixtures::{TALK, admitted, alone};
use bspl_types::Admitted;
use durable_store::DurableStore;
use role_journal::StopDisk;
use std::alloc::Global;
use std::test::Fail;

/// What B's store is asked: to take `ask` with a text, or to emit `tell`.
enum Question {
    Ask(&'static [u8]),
    Tell,
}

/// A question and what is answered.
struct Row {
    question: Question,
    answer: Answer,
}

/// The bytes of a disk, the call of it that fails, and what a store on it is asked in order.
struct Case {
    size: u64,
    stop: u64,
    rows: &'static [Row],
}

const CASES: &[Case] = &[
    // three places, and no failure
    Case {
        size: 1686,
        stop: 100,
        rows: &[
            Row {
                question: Question::Tell,
                answer: Answer::Missing { param: 0 },
            },
            Row {
                question: Question::Ask(b"ab"),
                answer: Answer::Fresh,
            },
            Row {
                question: Question::Ask(b"ab"),
                answer: Answer::Repeat,
            },
            Row {
                question: Question::Ask(b"cd"),
                answer: Answer::Differs { param: 1 },
            },
            Row {
                question: Question::Tell,
                answer: Answer::Sent {
                    stamp: 3,
                    number: 1,
                },
            },
            Row {
                question: Question::Tell,
                answer: Answer::Bound { param: 2 },
            },
        ],
    },
    // one place, and a byte too few for another: even a repeat is refused when it is full
    Case {
        size: 1123,
        stop: 100,
        rows: &[
            Row {
                question: Question::Ask(b"ab"),
                answer: Answer::Fresh,
            },
            Row {
                question: Question::Ask(b"ab"),
                answer: Answer::Full,
            },
            Row {
                question: Question::Tell,
                answer: Answer::Full,
            },
        ],
    },
    // the gate of the receipt fails
    Case {
        size: 1686,
        stop: 7,
        rows: &[
            Row {
                question: Question::Ask(b"ab"),
                answer: Answer::Fault,
            },
            Row {
                question: Question::Ask(b"ab"),
                answer: Answer::Spent,
            },
            Row {
                question: Question::Tell,
                answer: Answer::Spent,
            },
        ],
    },
    // the last sync of the emission fails; a block, a repeat and a difference ask nothing of the disk
    Case {
        size: 1686,
        stop: 12,
        rows: &[
            Row {
                question: Question::Tell,
                answer: Answer::Missing { param: 0 },
            },
            Row {
                question: Question::Ask(b"ab"),
                answer: Answer::Fresh,
            },
            Row {
                question: Question::Ask(b"ab"),
                answer: Answer::Repeat,
            },
            Row {
                question: Question::Ask(b""),
                answer: Answer::Differs { param: 1 },
            },
            Row {
                question: Question::Tell,
                answer: Answer::Fault,
            },
            Row {
                question: Question::Tell,
                answer: Answer::Spent,
            },
        ],
    },
];

/// What the store answers to the question.
fn answer_to(d: &mut DurableStore<StopDisk>, question: &Question) -> Answer {
    match question {
        Question::Ask(x) => match ask(x) {
            Some(m) => receive(d, &m),
            None => Answer::Unasked,
        },
        Question::Tell => tell(d),
    }
}

/// Whether the store answers all questions as is wanted.
fn answers(d: &mut DurableStore<StopDisk>, rows: &[Row]) -> bool {
    for row in rows {
        if answer_to(d, &row.question) != row.answer {
            return false;
        }
    }
    true
}

/// Whether a store on a new disk does.
fn case_holds(alloc: Global, a: &Admitted, case: &Case) -> Result<bool, Fail> {
    if case.stop == 0 {
        return Err("calls are counted from 1".into());
    }
    let disk = StopDisk::new(alloc, case.size, case.stop, 0)?;
    match start(alloc, a, disk) {
        Ok(mut d) => Ok(answers(&mut d, case.rows)),
        Err(_) => Ok(false),
    }
}

/// Whether it does so in all cases.
fn cases_hold(alloc: Global) -> Result<bool, Fail> {
    let protocols = alone(alloc, admitted(alloc, TALK)?)?;
    for case in CASES {
        if !case_holds(alloc, protocols.at(0), case)? {
            return Ok(false);
        }
    }
    Ok(true)
}

#[test]
fn a_durable_store_answers_or_says_why_not(rt: HostRuntime) -> Result<(), Fail> {
    assert!(rt; cases_hold(rt.alloc())?);
    Ok(())
}
