use super::protocols::{Declared, ID, OUT_ID, PING, PING_ALONE, Parts, Schema, assemble};
use bspl_types::{Adornment, Carried, NoMemory};
use enactment_model::single_producer;
use std::alloc::Global;
use std::test::Fail;

/// The parameters: the key, the item and the price.
const PARAMS: &[Declared] = &[
    ID,
    Declared {
        name: b"item",
        key: false,
        ..ID
    },
    Declared {
        name: b"price",
        key: false,
        ..ID
    },
];

/// The key, adorned `in`.
const IN_ID: Carried = Carried {
    param: 0,
    adornment: Adornment::In,
};

/// The item, adorned `in`.
const IN_ITEM: Carried = Carried {
    param: 1,
    adornment: Adornment::In,
};

/// The item, adorned `out`.
const OUT_ITEM: Carried = Carried {
    param: 1,
    adornment: Adornment::Out,
};

/// The item, adorned `nil`.
const NIL_ITEM: Carried = Carried {
    param: 1,
    adornment: Adornment::Nil,
};

/// The price, adorned `out`.
const OUT_PRICE: Carried = Carried {
    param: 2,
    adornment: Adornment::Out,
};

/// Messages, and whether each parameter has one producer at most.
struct Row {
    messages: &'static [Schema],
    single: bool,
}

const ROWS: &[Row] = &[
    Row {
        messages: &[],
        single: true,
    },
    Row {
        messages: &[
            Schema {
                name: b"ask",
                carried: &[OUT_ID, OUT_ITEM],
                ..PING
            },
            Schema {
                name: b"quote",
                carried: &[IN_ID, IN_ITEM, OUT_PRICE],
                ..PING
            },
            Schema {
                name: b"drop",
                carried: &[IN_ID, NIL_ITEM],
                ..PING
            },
        ],
        single: true,
    },
    Row {
        messages: &[
            Schema {
                name: b"m",
                carried: &[OUT_ID],
                ..PING
            },
            Schema {
                name: b"n",
                carried: &[OUT_ID],
                ..PING
            },
        ],
        single: false,
    },
    Row {
        messages: &[
            Schema {
                name: b"ask",
                carried: &[OUT_ID, OUT_PRICE],
                ..PING
            },
            Schema {
                name: b"tell",
                carried: &[IN_ID, OUT_ITEM],
                ..PING
            },
            Schema {
                name: b"quote",
                carried: &[IN_ID, IN_ITEM, OUT_PRICE],
                ..PING
            },
        ],
        single: false,
    },
    Row {
        messages: &[
            Schema {
                name: b"ask",
                carried: &[OUT_ID],
                ..PING
            },
            Schema {
                name: b"tell",
                carried: &[IN_ID, OUT_ITEM, OUT_PRICE],
                ..PING
            },
            Schema {
                name: b"quote",
                carried: &[IN_ID, IN_ITEM, OUT_PRICE],
                ..PING
            },
        ],
        single: false,
    },
];

/// Whether each parameter of the protocol of the messages has one producer at most; nothing if
/// there is no such protocol.
fn has_single_producers(
    alloc: Global,
    messages: &'static [Schema],
) -> Result<Option<bool>, NoMemory> {
    let parts = Parts {
        params: PARAMS,
        public: 3,
        messages,
        ..PING_ALONE
    };
    match assemble(alloc, &parts)? {
        Some(x) => Ok(Some(single_producer(&x))),
        None => Ok(None),
    }
}

#[test]
fn two_producers_of_a_parameter_are_found(rt: HostRuntime) -> Result<(), Fail> {
    for row in ROWS {
        assert!(rt; has_single_producers(rt.alloc(), row.messages) == Ok(Some(row.single)));
    }
    Ok(())
}
