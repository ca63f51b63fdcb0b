use super::acts::{AFTER_N, Act, M_12, M_21, M_21_GOT, key_of, run_of};
use super::protocols::{PAIR, listed};
use bspl_types::{Expanded, Value};
use role_knowledge::{Block, enabled};
use std::alloc::Global;
use std::test::Fail;

/// Whether the message can be emitted, or why not.
#[derive(Clone, Copy)]
enum Answer {
    Enabled,
    Missing { param: u32 },
    Bound { param: u32, kept: u64 },
}

/// Acts, the message and the key that are asked for, and the answer.
struct Row<'a> {
    acts: &'a [Act<'a>],
    message: u32,
    key: &'a [u64],
    answer: Answer,
}

/// A protocol, and rows on it.
struct Case<'a> {
    protocol: &'a [u8],
    rows: &'a [Row<'a>],
}

const PAIR_ROWS: &[Row] = &[
    Row {
        acts: &[],
        message: 0,
        key: &[1, 2],
        answer: Answer::Enabled,
    },
    Row {
        acts: &[],
        message: 1,
        key: &[1, 2],
        answer: Answer::Missing { param: 0 },
    },
    Row {
        acts: &[M_12, M_21, M_21_GOT],
        message: 1,
        key: &[2, 1],
        answer: Answer::Enabled,
    },
    Row {
        acts: AFTER_N,
        message: 0,
        key: &[1, 2],
        answer: Answer::Bound { param: 0, kept: 1 },
    },
    Row {
        acts: AFTER_N,
        message: 0,
        key: &[2, 1],
        answer: Answer::Bound { param: 0, kept: 2 },
    },
    Row {
        acts: AFTER_N,
        message: 0,
        key: &[1, 1],
        answer: Answer::Enabled,
    },
    Row {
        acts: AFTER_N,
        message: 1,
        key: &[1, 2],
        answer: Answer::Missing { param: 0 },
    },
    Row {
        acts: AFTER_N,
        message: 1,
        key: &[2, 1],
        answer: Answer::Bound { param: 3, kept: 7 },
    },
];

/// The seller gives a quote on request.
const PURCHASE: &[u8] = b"P {
  roles Buyer, Seller, Shipper
  parameters out ID key, out item, out price, out outcome
  private address, response
  Buyer -> Seller: rfq[out ID, out item]
  Seller -> Buyer: quote[in ID, in item, out price]
  Buyer -> Seller: accept[in ID, in item, in price, out address, out response]
  Buyer -> Seller: reject[in ID, in item, in price, out outcome, out response]
  Seller -> Shipper: ship[in ID, in item, in address]
  Shipper -> Buyer: deliver[in ID, in item, in address, out outcome]
}";

const RFQ: Act = Act::Emit(0, &[1, 4]);

const RFQ_GOT: Act = Act::Receive(0, &[1, 4]);

const QUOTE_GOT: Act = Act::Receive(1, &[1, 4, 9]);

const ACCEPT: Act = Act::Emit(2, &[1, 4, 9, 30, 50]);

const PURCHASE_ROWS: &[Row] = &[
    Row {
        acts: &[],
        message: 1,
        key: &[1],
        answer: Answer::Missing { param: 0 },
    },
    Row {
        acts: &[RFQ],
        message: 1,
        key: &[1],
        answer: Answer::Missing { param: 0 },
    },
    Row {
        acts: &[RFQ, RFQ_GOT],
        message: 1,
        key: &[1],
        answer: Answer::Enabled,
    },
    Row {
        acts: &[RFQ, RFQ_GOT],
        message: 1,
        key: &[2],
        answer: Answer::Missing { param: 0 },
    },
    Row {
        acts: &[RFQ],
        message: 2,
        key: &[1],
        answer: Answer::Missing { param: 2 },
    },
    Row {
        acts: &[RFQ, QUOTE_GOT],
        message: 2,
        key: &[1],
        answer: Answer::Enabled,
    },
    Row {
        acts: &[RFQ, QUOTE_GOT, ACCEPT],
        message: 3,
        key: &[1],
        answer: Answer::Bound { param: 5, kept: 50 },
    },
    Row {
        acts: &[RFQ_GOT],
        message: 4,
        key: &[1],
        answer: Answer::Missing { param: 4 },
    },
];

/// An offer is withdrawn only before it names an item.
const OFFER: &[u8] = b"P {
  roles A, B
  parameters out ID key, out item
  A -> B: open[out ID]
  A -> B: offer[in ID, out item]
  A -> B: withdraw[in ID, nil item]
}";

const OPEN: Act = Act::Emit(0, &[1]);

const OFFERED: Act = Act::Emit(1, &[1, 4]);

const OFFER_ROWS: &[Row] = &[
    Row {
        acts: &[],
        message: 2,
        key: &[1],
        answer: Answer::Missing { param: 0 },
    },
    Row {
        acts: &[OPEN],
        message: 2,
        key: &[1],
        answer: Answer::Enabled,
    },
    Row {
        acts: &[OPEN, OFFERED],
        message: 2,
        key: &[1],
        answer: Answer::Bound { param: 1, kept: 4 },
    },
];

const CASES: &[Case] = &[
    Case {
        protocol: PAIR,
        rows: PAIR_ROWS,
    },
    Case {
        protocol: PURCHASE,
        rows: PURCHASE_ROWS,
    },
    Case {
        protocol: OFFER,
        rows: OFFER_ROWS,
    },
];

/// Whether that is the answer.
fn is_answer(given: Result<(), Block>, wanted: Answer) -> bool {
    match (given, wanted) {
        (Ok(()), Answer::Enabled) => true,
        (Err(Block::Missing { param }), Answer::Missing { param: missing }) => param == missing,
        (
            Err(Block::Bound { param, kept }),
            Answer::Bound {
                param: bound,
                kept: number,
            },
        ) => { param == bound && kept == Value::Number(number) }
        (_, _) => false,
    }
}

/// Whether the row has its answer.
fn is_answered(alloc: Global, x: &Expanded, row: &Row) -> Result<bool, Fail> {
    let key = key_of(x, row.key).ok_or("this is no key")?;
    if row.message as usize >= x.messages.len() {
        return Ok(false);
    }
    let run = run_of(alloc, x, row.acts)?;
    Ok(is_answer(enabled(x, run.as_slice(), row.message, &key), row.answer))
}

/// Whether each row of the case has its answer.
fn are_answered(alloc: Global, case: &Case) -> Result<bool, Fail> {
    let protocols = listed(alloc, case.protocol)?;
    for row in case.rows {
        if !is_answered(alloc, protocols.at(0), row)? {
            return Ok(false);
        }
    }
    Ok(true)
}

#[test]
fn emissions_are_enabled_or_blocked(rt: HostRuntime) -> Result<(), Fail> {
    for case in CASES {
        assert!(rt; are_answered(rt.alloc(), case)?);
    }
    Ok(())
}
