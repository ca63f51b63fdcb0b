ghost use Rattle.std.specs.Prelude.{◌≡◌, length};

use super::protocols::{alone, protocol};
use bspl_types::{Admitted, Event, NoMemory, Run, Value};
use enactability::{
    Enact, EnactSearch, check_dead, enact_clauses_are_few, enactable, read_dead, write_dead,
};
use log_checker::Reject;
use std::alloc::Global;
use std::test::Fail;

/// A would have to know z before it sends m, and nothing tells it.
const LONE: &[u8] = b"Lone {
    roles A, B parameters out ID key, out x private z
    A -> B: m[out ID, in z, out x]
}";

/// A produces the key and sends it to B.
const PING: &[u8] = b"Ping { roles A, B parameters out ID key A -> B: ping[out ID] }";

/// B answers yes or no, and not both.
const CHOICE: &[u8] = b"Choice {
    roles A, B parameters out ID key, out answer
    A -> B: ask[out ID]
    B -> A: yes[in ID, out answer]
    B -> A: no[in ID, out answer]
}";

/// The text of a log, and the answer; none if its first line is refused.
struct Row<'a> {
    text: &'a [u8],
    answer: Option<Result<(), Reject>>,
}

/// Logs for the formula of Lone's message, and the answers. Its clause 4 says that it is not sent,
/// since no kind makes z known, and its clause 5 that it is.
const ROWS: &[Row] = &[
    Row {
        text: b"log 1 dead m\nstep 5 1 4\nend\n",
        answer: Some(Ok(())),
    },
    Row {
        text: b"log 1 dead m\nstep 5 2 4\nend\n",
        answer: Some(Err(Reject::NoPivot { step: 1, link: 1 })),
    },
    Row {
        text: b"log 2 dead m\ndrop 5\nstep 5 1 4\nend\n",
        answer: Some(Err(Reject::NoClause { step: 1 })),
    },
    Row {
        text: b"log 1 dead m\nend\n",
        answer: Some(Err(Reject::NotEmpty)),
    },
    Row {
        text: b"log 1 dead z\nstep 5 1 4\nend\n",
        answer: None,
    },
    Row {
        text: b"log 1 dead m m\nstep 5 1 4\nend\n",
        answer: None,
    },
    Row {
        text: b"log 1 safety\nstep 5 1 4\nend\n",
        answer: None,
    },
];

/// How many events a run has, and the message of the last emission.
#[derive(Clone, Copy)]
struct Ending {
    events: usize,
    message: u32,
}

/// How runs of the choice end that enact a message each, one after the other. Only B's own
/// reception of ask comes before its answer.
const ENDINGS: &[Ending] = &[
    Ending {
        events: 3,
        message: 1,
    },
    Ending {
        events: 1,
        message: 0,
    },
    Ending {
        events: 3,
        message: 2,
    },
];

/// The answer for the text of a short log.
fn answer(alloc: Global, protocol: &Admitted, text: &[u8]) -> Option<Result<(), Reject>> {
    // law: the formula of a message has few clauses
    enact_clauses_are_few();
    let (message, log) = read_dead(alloc, protocol, text).ok()?;
    if log.steps.len() < 100 {
        Some(check_dead(alloc, protocol, message, &log))
    } else {
        None
    }
}

/// Whether the protocol's first message is dead, by a log that is accepted as it is written.
fn is_dead(alloc: Global, protocol: &Admitted) -> bool {
    if protocol.expanded().messages.is_empty() {
        return false;
    }
    match enactable(alloc, protocol, 0, 100) {
        Ok(Enact::Dead(log)) => match write_dead(alloc, protocol, 0, &log) {
            Ok(text) => answer(alloc, protocol, text.as_slice()) == Some(Ok(())),
            Err(_) => false,
        },
        _ => false,
    }
}

/// Whether the run ends so, and all of it is under the key 1.
fn ends_so(run: &Run, ending: Ending) -> bool {
    let under_one = run.as_slice().iter().all(|event| event.instance().key.as_slice()
        == [Value::Number(1)].as_slice());
    match run.as_slice().last() {
        Some(Event::Emit(last)) => {
            last.message == ending.message && run.len() == ending.events && under_one
        }
        _ => false,
    }
}

/// Whether the message is enacted by a run that ends so.
fn is_answered(alloc: Global, search: &mut EnactSearch<'_>, ending: Ending) -> bool
    requires { length search.old.messages ≡ 3 }
    ensures { search.new ≡ search.old }
{
    if ending.message >= 3 {
        return false;
    }
    match search.enactable(alloc, ending.message, 100) {
        Ok(Enact::Enacted(run)) => ends_so(&run, ending),
        _ => false,
    }
}

/// Whether all messages of a protocol of three are, in one search.
fn are_answered(alloc: Global, protocol: &Admitted) -> Result<bool, NoMemory> {
    if protocol.expanded().messages.len() != 3 {
        return Ok(false);
    }
    let mut search = EnactSearch::new(alloc, protocol)?;
    for ending in ENDINGS {
        if !is_answered(alloc, &mut search, *ending) {
            return Ok(false);
        }
    }
    Ok(true)
}

/// Whether the protocol's first message is enacted by a run that ends so.
fn is_enacted(alloc: Global, protocol: &Admitted, ending: Ending) -> bool {
    if protocol.expanded().messages.is_empty() {
        return false;
    }
    match enactable(alloc, protocol, 0, 100) {
        Ok(Enact::Enacted(run)) => ends_so(&run, ending),
        _ => false,
    }
}

#[test]
fn a_message_that_waits_for_nothing_known_is_dead(rt: HostRuntime) -> Result<(), Fail> {
    let lones = alone(rt.alloc(), protocol(rt.alloc(), LONE, b"Lone")?)?;
    assert!(rt; is_dead(rt.alloc(), lones.at(0)));
    for row in ROWS {
        assert!(rt; answer(rt.alloc(), lones.at(0), row.text) == row.answer);
    }
    Ok(())
}

#[test]
fn messages_are_enacted_one_after_the_other(rt: HostRuntime) -> Result<(), Fail> {
    let pings = alone(rt.alloc(), protocol(rt.alloc(), PING, b"Ping")?)?;
    let ending = Ending {
        events: 1,
        message: 0,
    };
    assert!(rt; is_enacted(rt.alloc(), pings.at(0), ending));
    let choices = alone(rt.alloc(), protocol(rt.alloc(), CHOICE, b"Choice")?)?;
    assert!(rt; are_answered(rt.alloc(), choices.at(0))?);
    Ok(())
}
