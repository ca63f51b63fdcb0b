use super::fixtures::{alone, count_chosen, has_room, hold, is_number, key, make_room, store};
use bspl_types::{Key, Stamped, Value};
use local_store::Store;
use role_knowledge::Block;
use std::alloc::Global;
use std::test::Fail;

/// What is emitted, or why nothing is.
enum Outcome {
    Emitted { stamp: u64, number: u32 },
    Missing { param: u32 },
    Bound { param: u32, kept: u64 },
}

/// An emission of a case's message: its key and the value that is chosen, what is wanted, and
/// whether the message is emitted under the key afterwards.
struct Row<'a> {
    key: &'a [u64],
    chosen: u64,
    outcome: Outcome,
    is_emitted: bool,
}

/// A role and its message in a protocol, rows that a store of the role answers in order, and how
/// many events the store has in the end.
struct Case<'a> {
    protocol: &'a [u8],
    role: u32,
    message: u32,
    rows: &'a [Row<'a>],
    events: u32,
}

/// A question and its answer, under two keys.
const PAIR: &[u8] = b"P {
  roles A, B
  parameters out K key, out L key, out x, out y
  A -> B: m[out K, out L, out x]
  B -> A: n[in K, in L, in x, out y]
}";

/// The rows of `m`: a key is bound once.
const PAIR_ROWS: &[Row] = &[
    Row {
        key: &[1, 2],
        chosen: 5,
        outcome: Outcome::Emitted {
            stamp: 1,
            number: 0,
        },
        is_emitted: true,
    },
    Row {
        key: &[2, 1],
        chosen: 6,
        outcome: Outcome::Emitted {
            stamp: 2,
            number: 1,
        },
        is_emitted: true,
    },
    Row {
        key: &[1, 2],
        chosen: 8,
        outcome: Outcome::Bound { param: 0, kept: 1 },
        is_emitted: true,
    },
];

/// The seller gives a quote on request.
const PURCHASE: &[u8] = b"P {
  roles Buyer, Seller, Shipper
  parameters out ID key, out item, out price, out outcome
  private address, response
  Buyer -> Seller: rfq[out ID, out item]
  Seller -> Buyer: quote[in ID, in item, out price]
  Buyer -> Seller: accept[in ID, in item, in price, out address, out response]
  Buyer -> Seller: reject[in ID, in item, in price, out outcome, out response]
  Seller -> Shipper: ship[in ID, in item, in address]
  Shipper -> Buyer: deliver[in ID, in item, in address, out outcome]
}";

/// The row of `quote`: no request for a quote has come.
const PURCHASE_ROWS: &[Row] = &[Row {
    key: &[1],
    chosen: 9,
    outcome: Outcome::Missing { param: 0 },
    is_emitted: false,
}];

const CASES: &[Case] = &[
    Case {
        protocol: PAIR,
        role: 0,
        message: 0,
        rows: PAIR_ROWS,
        events: 2,
    },
    Case {
        protocol: PURCHASE,
        role: 1,
        message: 1,
        rows: PURCHASE_ROWS,
        events: 0,
    },
];

/// Whether the answer is the outcome.
fn is_outcome(answer: &Result<Stamped, Block>, wanted: &Outcome) -> bool {
    match (answer, wanted) {
        (Ok(m), Outcome::Emitted { stamp, number }) => m.stamp == *stamp && m.number == *number,
        (Err(Block::Missing { param }), Outcome::Missing { param: missing }) => param == missing,
        (
            Err(Block::Bound { param, kept }),
            Outcome::Bound {
                param: bound,
                kept: n,
            },
        ) => { param == bound && is_number(kept, *n) }
        (_, _) => false,
    }
}

/// Whether the store answers the row's emission of the message as is wanted, and `blocked` with it.
/// The message has to be one of the store's role, with one chosen value.
fn emits_as(store: &mut Store, message: u32, key: &Key, row: &Row) -> bool {
    let x = store.admitted().expanded();
    if message as usize >= x.messages.len() || !has_room(store, key) {
        return false;
    }
    let schema = x.messages.at(message as usize);
    let count = count_chosen(x.keys.as_slice(), schema.carried.as_slice());
    if schema.sender != store.role() || count != 1 {
        return false;
    }
    let is_free = store.blocked(message, key).is_ok();
    let answer = store.emit(message, key, &[Value::Number(row.chosen)]);
    is_free == answer.is_ok() && is_outcome(&answer, &row.outcome)
}

/// Whether the store, which has no room, answers all rows of the case as is wanted.
fn answers(store: &mut Store, case: &Case) -> Result<bool, Fail> {
    make_room(store)?;
    for row in case.rows {
        hold(store, row.key)?;
        let key = key(row.key).ok_or("there are too many numbers")?;
        let is_right = emits_as(store, case.message, &key, row);
        if !is_right || store.emitted(case.message, &key) != row.is_emitted {
            return Ok(false);
        }
    }
    Ok(store.len() == case.events)
}

/// Whether a new store does.
fn is_answered(alloc: Global, case: &Case) -> Result<bool, Fail> {
    let mut stores = alone(alloc, store(alloc, case.protocol, case.role)?)?;
    answers(stores.at_mut(0), case)
}

#[test]
fn a_store_emits_or_says_why_not(rt: HostRuntime) -> Result<(), Fail> {
    for case in CASES {
        assert!(rt; is_answered(rt.alloc(), case)?);
    }
    Ok(())
}
