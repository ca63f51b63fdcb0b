use super::fixtures::{alone, has_room, hold, is_number, key, make_room, store};
use bspl_types::{Instance, Key, Stamped, Value, Values};
use local_store::{Receipt, Store};
use std::alloc::Global;
use std::test::Fail;

/// A and B each send C (2) a message that produces x (1).
const CLASH: &[u8] = b"P {
  roles A, B, C
  parameters out ID key, out x
  A -> C: a[out ID, out x]
  B -> C: b[out ID, out x]
}";

/// What is answered to a message.
enum Answer {
    Fresh,
    Repeat,
    Differs { param: u32, kept: u64, arrived: u64 },
}

/// A message, its value of x, and what is wanted.
struct Row {
    message: u32,
    x: u64,
    answer: Answer,
}

const ROWS: &[Row] = &[
    Row {
        message: 0,
        x: 5,
        answer: Answer::Fresh,
    },
    Row {
        message: 0,
        x: 5,
        answer: Answer::Repeat,
    },
    Row {
        message: 0,
        x: 5,
        answer: Answer::Repeat,
    },
    Row {
        message: 1,
        x: 7,
        answer: Answer::Differs {
            param: 1,
            kept: 5,
            arrived: 7,
        },
    },
];

/// Whether the receipt is the answer.
fn is_answer(receipt: &Receipt, wanted: &Answer) -> bool {
    match (receipt, wanted) {
        (Receipt::Fresh, Answer::Fresh) => true,
        (Receipt::Repeat, Answer::Repeat) => true,
        (
            Receipt::Differs {
                param,
                kept,
                arrived,
            },
            Answer::Differs {
                param: differing,
                kept: first,
                arrived: second,
            },
        ) => param == differing && is_number(kept, *first) && is_number(arrived, *second),
        (_, _) => false,
    }
}

/// Whether the store answers the message so. The message has to be one for the store.
fn receives_as(store: &mut Store, m: &Stamped, wanted: &Answer) -> bool {
    let x = store.admitted().expanded();
    if !m.instance.fits(x) || !has_room(store, &m.instance.key) || m.stamp == u64::MAX {
        return false;
    }
    if x.messages.at(m.instance.message as usize).receiver != store.role() {
        return false;
    }
    is_answer(&store.receive(m), wanted)
}

/// The message under the key 1 with this value of x, as its sender's first event.
fn stamped(message: u32, key: Key, x: u64) -> Stamped {
    Stamped {
        instance: Instance {
            message,
            key,
            values: Values::of(&[Value::Number(1), Value::Number(x)]),
        },
        stamp: 1,
        number: 0,
    }
}

/// Whether x has the number under the key.
fn has_x(store: &Store, key: &Key, number: u64) -> bool {
    match store.value(key, 1) {
        Some(value) => is_number(&value, number),
        None => false,
    }
}

/// Whether the store answers all rows as is wanted.
fn receives_all(store: &mut Store, key: Key) -> bool {
    for row in ROWS {
        if !receives_as(store, &stamped(row.message, key, row.x), &row.answer) {
            return false;
        }
    }
    true
}

/// Whether the store, which has no room, answers all rows as is wanted, and in the end has one
/// event, the stamp after the message's, and the first value of x.
fn answers(store: &mut Store) -> Result<bool, Fail> {
    make_room(store)?;
    hold(store, &[1])?;
    let key = key(&[1]).ok_or("this is a key")?;
    let all = receives_all(store, key);
    Ok(all && store.len() == 1 && store.clock() == 2 && has_x(store, &key, 5))
}

/// Whether a new store of C does.
fn is_answered(alloc: Global) -> Result<bool, Fail> {
    let mut stores = alone(alloc, store(alloc, CLASH, 2)?)?;
    answers(stores.at_mut(0))
}

#[test]
fn a_store_takes_a_message_once(rt: HostRuntime) -> Result<(), Fail> {
    assert!(rt; is_answered(rt.alloc())?);
    Ok(())
}
