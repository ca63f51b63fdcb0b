use super::bspl_types_tests::{key, values};
use super::protocols::{PING_ALONE, assemble};
use bspl_types::{Event, Expanded, Instance, NoMemory};
use std::alloc::Global;
use std::test::Fail;

/// A message, and the numbers of a key and of values.
#[derive(Clone, Copy)]
struct Numbers {
    message: u32,
    key: &'static [u64],
    values: &'static [u64],
}

/// The instance of ping.
const PING: Numbers = Numbers {
    message: 0,
    key: &[7],
    values: &[7],
};

/// Instances that do not fit the protocol of ping alone.
const MISFITS: &[Numbers] = &[
    Numbers { message: 1, ..PING },
    Numbers { key: &[8], ..PING },
    Numbers {
        key: &[7, 7],
        ..PING
    },
    Numbers {
        values: &[8],
        ..PING
    },
    Numbers {
        values: &[7, 7],
        ..PING
    },
    Numbers {
        values: &[],
        ..PING
    },
];

/// The instance, if its numbers are those of a key and of values.
fn instance(numbers: &Numbers) -> Option<Instance> {
    Some(Instance {
        message: numbers.message,
        key: key(numbers.key)?,
        values: values(numbers.values)?,
    })
}

/// Whether an instance fits the protocol, and whether it is that of ping.
fn answers(x: &Expanded, row: &Numbers) -> Option<(bool, bool)> {
    let ping = instance(&PING)?;
    let found = instance(row)?;
    Some((found.fits(x), found.same(&ping)))
}

/// Whether ping fits the protocol, and each misfit does not.
fn are_told_apart(x: &Expanded) -> bool {
    answers(x, &PING) == Some((true, true))
        && MISFITS
            .iter()
            .all(|row| answers(x, row) == Some((false, false)))
}

/// The roles that emit and receive the instance.
fn roles_of(x: &Expanded, ping: Instance) -> Option<(u32, u32)> {
    if ping.fits(x) {
        Some((Event::Emit(ping).role(x), Event::Receive(ping).role(x)))
    } else {
        None
    }
}

/// Whether ping goes from role 0 to role 1.
fn has_its_roles(x: &Expanded) -> bool {
    match instance(&PING) {
        Some(ping) => roles_of(x, ping) == Some((0, 1)),
        None => false,
    }
}

/// Whether ping alone fits its protocol, between its roles.
fn is_ping_alone(alloc: Global) -> Result<bool, NoMemory> {
    match assemble(alloc, &PING_ALONE)? {
        Some(x) => Ok(are_told_apart(&x) && has_its_roles(&x)),
        None => Ok(false),
    }
}

#[test]
fn instances_fit_their_protocol(rt: HostRuntime) -> Result<(), Fail> {
    assert!(rt; is_ping_alone(rt.alloc()) == Ok(true));
    Ok(())
}
