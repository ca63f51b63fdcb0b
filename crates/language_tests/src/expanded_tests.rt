use super::protocols::{Declared, ID, OUT_ID, PING, PING_ALONE, Parts, Schema, assemble};
use bspl_types::{Admitted, Adornment, Carried, Expanded, NoMemory, TryClone, index_of};
use protocol_expand::admit;
use std::alloc::Global;
use std::test::Fail;

const NIL_ID: Carried = Carried {
    param: 0,
    adornment: Adornment::Nil,
};

const OUT_ITEM: Carried = Carried {
    param: 1,
    adornment: Adornment::Out,
};

const ITEM: Declared = Declared {
    name: b"item",
    adornment: Some(Adornment::In),
    key: false,
};

const HIDDEN: Declared = Declared {
    name: b"hidden",
    adornment: None,
    key: false,
};

const EIGHT: &[&[u8]] = &[b"A", b"B", b"C", b"D", b"E", b"F", b"G", b"H"];

const NINE: &[&[u8]] = &[b"A", b"B", b"C", b"D", b"E", b"F", b"G", b"H", b"I"];

/// A protocol whose second parameter is its key.
const KEY_IS_SECOND: Parts = Parts {
    params: &[ITEM, ID],
    public: 2,
    ..PING_ALONE
};

/// The indices of its keys.
const KEYS: &[u32] = &[1];

/// Protocols that are admitted.
const ADMITTED: &[Parts] = &[
    PING_ALONE,
    Parts {
        roles: EIGHT,
        ..PING_ALONE
    },
    Parts {
        params: &[ID, ITEM],
        public: 2,
        ..PING_ALONE
    },
    Parts {
        params: &[ID, HIDDEN],
        ..PING_ALONE
    },
    Parts {
        messages: &[],
        ..PING_ALONE
    },
];

/// Protocols that are well formed and refused.
const REFUSED: &[Parts] = &[
    Parts {
        params: &[ITEM],
        ..PING_ALONE
    },
    KEY_IS_SECOND,
    Parts {
        messages: &[Schema { sender: 1, ..PING }],
        ..PING_ALONE
    },
    Parts {
        messages: &[Schema {
            carried: &[OUT_ID, OUT_ID],
            ..PING
        }],
        ..PING_ALONE
    },
    Parts {
        messages: &[Schema {
            carried: &[NIL_ID],
            ..PING
        }],
        ..PING_ALONE
    },
    Parts {
        params: &[ID, ITEM],
        public: 2,
        messages: &[Schema {
            carried: &[OUT_ITEM],
            ..PING
        }],
        ..PING_ALONE
    },
];

/// Parts that are not well formed.
const MALFORMED: &[Parts] = &[
    Parts {
        roles: &[b"A", b"A"],
        ..PING_ALONE
    },
    Parts {
        roles: &[b"A", b"role"],
        ..PING_ALONE
    },
    Parts {
        roles: NINE,
        ..PING_ALONE
    },
    Parts {
        params: &[Declared {
            adornment: Some(Adornment::Nil),
            ..ID
        }],
        ..PING_ALONE
    },
    Parts {
        params: &[Declared {
            adornment: None,
            ..ID
        }],
        ..PING_ALONE
    },
    Parts {
        params: &[ID, ITEM],
        ..PING_ALONE
    },
    Parts {
        params: &[ID, ID],
        public: 2,
        ..PING_ALONE
    },
    Parts {
        public: 0,
        ..PING_ALONE
    },
    Parts {
        public: 2,
        ..PING_ALONE
    },
    Parts {
        messages: &[Schema {
            receiver: 2,
            ..PING
        }],
        ..PING_ALONE
    },
    Parts {
        messages: &[Schema {
            carried: &[OUT_ITEM],
            ..PING
        }],
        ..PING_ALONE
    },
    Parts {
        messages: &[Schema {
            carried: &[],
            ..PING
        }],
        ..PING_ALONE
    },
    Parts {
        messages: &[PING, PING],
        ..PING_ALONE
    },
];

/// Whether the expansion is admitted, and a copy of what was admitted too; nothing if there is no
/// room for the copy.
fn is_admitted(x: Expanded) -> Option<bool> {
    match admit(x) {
        Ok(admitted) => is_admitted_again(&admitted),
        Err(_) => Some(false),
    }
}

/// Whether a copy of the expansion is admitted; nothing if there is no room for it.
fn is_copy_admitted(x: &Expanded) -> Option<bool> {
    match x.try_clone() {
        Ok(copy) => Some(admit(copy).is_ok()),
        Err(NoMemory) => None,
    }
}

/// Whether a copy of what was admitted is admitted; nothing if there is no room for it.
fn is_admitted_again(admitted: &Admitted) -> Option<bool> {
    match admitted.copy() {
        Ok(copy) => is_copy_admitted(copy.expanded()),
        Err(NoMemory) => None,
    }
}

/// Whether the protocol is admitted; nothing if its parts are not well formed.
fn answer(alloc: Global, parts: &Parts) -> Result<Option<bool>, NoMemory> {
    match assemble(alloc, parts)? {
        Some(x) => Ok(is_admitted(x)),
        None => Ok(None),
    }
}

#[test]
fn protocols_are_refused_or_admitted(rt: HostRuntime) {
    for parts in ADMITTED {
        assert!(rt; answer(rt.alloc(), parts) == Ok(Some(true)));
    }
    for parts in REFUSED {
        assert!(rt; answer(rt.alloc(), parts) == Ok(Some(false)));
    }
    for parts in MALFORMED {
        assert!(rt; answer(rt.alloc(), parts) == Ok(None));
    }
}

/// Whether the indices of its key and of its names are found.
fn has_indices(x: &Expanded) -> bool {
    x.keys.as_slice() == KEYS
        && index_of(x.roles.as_slice(), b"B") == Some(1)
        && index_of(x.params.as_slice(), b"ID") == Some(1)
        && index_of(x.messages.as_slice(), b"pong").is_none()
}

/// Whether the indices of a second key and of the names are found.
fn is_second_found(alloc: Global) -> Result<bool, NoMemory> {
    match assemble(alloc, &KEY_IS_SECOND)? {
        Some(x) => Ok(has_indices(&x)),
        None => Ok(false),
    }
}

#[test]
fn parts_have_their_indices(rt: HostRuntime) -> Result<(), Fail> {
    assert!(rt; is_second_found(rt.alloc()) == Ok(true));
    Ok(())
}
