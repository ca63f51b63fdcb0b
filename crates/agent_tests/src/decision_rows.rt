use super::acts::{AFTER_N, Act, M_12, M_12_AGAIN, M_21, M_21_GOT, N_21};
use super::protocols::PAIR;
use enactment_model::Conflict;

/// Why an event may not follow those before it.
#[derive(Clone, Copy)]
pub(crate) enum Fault {
    Nothing,
    Missing { param: u32 },
    Bound { param: u32, kept: u64 },
    Other { param: u32, kept: u64 },
    Unsent,
}

/// Acts and a key; then what is to be answered: the place of the first event that may not follow,
/// which is 0 if there is none, and its fault; the least conflict; the first message that is loose
/// under the key, and the first parameter that is unbound there.
pub(crate) struct Row<'a> {
    pub acts: &'a [Act<'a>],
    pub key: &'a [u64],
    pub bad: usize,
    pub fault: Fault,
    pub conflict: Option<Conflict>,
    pub loose: Option<u32>,
    pub unbound: Option<u32>,
}

/// A protocol, and rows on it.
pub(crate) struct Case<'a> {
    pub protocol: &'a [u8],
    pub rows: &'a [Row<'a>],
}

/// The answers for a legal run without a conflict, which is quiet and has bound what is public.
const COMPLETE: Row = Row {
    acts: &[],
    key: &[1],
    bad: 0,
    fault: Fault::Nothing,
    conflict: None,
    loose: None,
    unbound: None,
};

const N_12: Act = Act::Emit(1, &[1, 2, 6, 7]);

const N_21_GOT: Act = Act::Receive(1, &[2, 1, 6, 7]);

const N_21_WITH_7: Act = Act::Emit(1, &[2, 1, 7, 9]);

const PAIR_RUNS: &[Row] = &[
    Row {
        acts: &[],
        key: &[1, 2],
        loose: Some(0),
        unbound: Some(0),
        ..COMPLETE
    },
    Row {
        acts: AFTER_N,
        key: &[1, 2],
        loose: Some(0),
        unbound: Some(3),
        ..COMPLETE
    },
    Row {
        acts: AFTER_N,
        key: &[2, 1],
        loose: Some(1),
        ..COMPLETE
    },
    Row {
        acts: &[M_12, M_21, M_21_GOT, N_21, N_12],
        key: &[1, 2],
        bad: 5,
        fault: Fault::Missing { param: 0 },
        loose: Some(0),
        ..COMPLETE
    },
    Row {
        acts: &[M_21, M_21_GOT, N_21_WITH_7],
        key: &[2, 1],
        bad: 3,
        fault: Fault::Other { param: 2, kept: 6 },
        loose: Some(1),
        ..COMPLETE
    },
    Row {
        acts: &[M_21_GOT],
        key: &[2, 1],
        bad: 1,
        fault: Fault::Unsent,
        loose: Some(0),
        unbound: Some(3),
        ..COMPLETE
    },
    Row {
        acts: &[M_12, M_12_AGAIN],
        key: &[1, 2],
        bad: 2,
        fault: Fault::Bound { param: 0, kept: 1 },
        conflict: Some(Conflict {
            first: 1,
            second: 2,
            param: 0,
        }),
        loose: Some(0),
        unbound: Some(3),
        ..COMPLETE
    },
    Row {
        acts: &[M_21, M_21_GOT, N_21, N_21_GOT],
        key: &[2, 1],
        ..COMPLETE
    },
];

/// The seller ships, unless it knows that the buyer has cancelled.
const RACE: &[u8] = b"P {
  roles Buyer, Seller
  parameters out ID key, out outcome
  private stop
  Buyer -> Seller: order[out ID]
  Buyer -> Seller: cancel[in ID, out stop, out outcome]
  Seller -> Buyer: ship[in ID, nil stop, out outcome]
}";

const ORDER: Act = Act::Emit(0, &[1]);

const ORDER_GOT: Act = Act::Receive(0, &[1]);

const CANCEL: Act = Act::Emit(1, &[1, 2, 2]);

const CANCEL_GOT: Act = Act::Receive(1, &[1, 2, 2]);

const CANCEL_AGAIN: Act = Act::Emit(1, &[1, 4, 5]);

const SHIP: Act = Act::Emit(2, &[1, 3]);

const RACE_RUNS: &[Row] = &[
    Row {
        acts: &[ORDER],
        loose: Some(0),
        unbound: Some(1),
        ..COMPLETE
    },
    Row {
        acts: &[ORDER, ORDER_GOT],
        loose: Some(1),
        unbound: Some(1),
        ..COMPLETE
    },
    Row {
        acts: &[ORDER, ORDER_GOT, CANCEL, SHIP],
        conflict: Some(Conflict {
            first: 3,
            second: 4,
            param: 1,
        }),
        loose: Some(1),
        ..COMPLETE
    },
    Row {
        acts: &[ORDER, ORDER_GOT, CANCEL, CANCEL_GOT, SHIP],
        bad: 5,
        fault: Fault::Bound { param: 2, kept: 2 },
        conflict: Some(Conflict {
            first: 3,
            second: 5,
            param: 1,
        }),
        loose: Some(2),
        ..COMPLETE
    },
    Row {
        acts: &[ORDER, ORDER_GOT, CANCEL, CANCEL_GOT],
        ..COMPLETE
    },
    Row {
        acts: &[ORDER, ORDER_GOT, CANCEL, SHIP, ORDER],
        bad: 5,
        fault: Fault::Bound { param: 0, kept: 1 },
        conflict: Some(Conflict {
            first: 3,
            second: 4,
            param: 1,
        }),
        loose: Some(1),
        ..COMPLETE
    },
    Row {
        acts: &[ORDER, CANCEL, CANCEL_AGAIN],
        bad: 3,
        fault: Fault::Bound { param: 2, kept: 2 },
        conflict: Some(Conflict {
            first: 2,
            second: 3,
            param: 1,
        }),
        loose: Some(0),
        ..COMPLETE
    },
];

pub(crate) const CASES: &[Case] = &[
    Case {
        protocol: PAIR,
        rows: PAIR_RUNS,
    },
    Case {
        protocol: RACE,
        rows: RACE_RUNS,
    },
];
