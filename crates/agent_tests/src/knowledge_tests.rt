ghost use Rattle.bspl_types.specs.History.{IsRun};

use super::acts::{AFTER_N, Act, M_12, M_12_AGAIN, key_of, run_of};
use super::protocols::{PAIR, listed};
use bspl_types::{Event, Expanded, Key, Value};
use role_knowledge::knows;
use std::alloc::Global;
use std::test::Fail;

/// Acts on the protocol `PAIR`, the role and the key that are asked for, and the number that is
/// known of each parameter.
struct Row<'a> {
    acts: &'a [Act<'a>],
    role: u32,
    key: &'a [u64],
    values: [Option<u64>; 4],
}

const ROWS: &[Row] = &[
    Row {
        acts: &[],
        role: 0,
        key: &[1, 2],
        values: [None; 4],
    },
    Row {
        acts: AFTER_N,
        role: 0,
        key: &[1, 2],
        values: [Some(1), Some(2), Some(5), None],
    },
    Row {
        acts: AFTER_N,
        role: 0,
        key: &[2, 1],
        values: [Some(2), Some(1), Some(6), None],
    },
    Row {
        acts: AFTER_N,
        role: 0,
        key: &[1, 1],
        values: [None; 4],
    },
    Row {
        acts: AFTER_N,
        role: 1,
        key: &[1, 2],
        values: [None; 4],
    },
    Row {
        acts: AFTER_N,
        role: 1,
        key: &[2, 1],
        values: [Some(2), Some(1), Some(6), Some(7)],
    },
    Row {
        acts: &[M_12, M_12_AGAIN],
        role: 0,
        key: &[1, 2],
        values: [Some(1), Some(2), Some(5), None],
    },
];

/// Whether the row's role knows the row's values, and no other.
fn knows_values(x: &Expanded, events: &[Event], key: &Key, row: &Row) -> bool
    requires { IsRun x.now events.now }
{
    for param in 0..4u32 {
        let wanted = row.values[param as usize].map(|number| Value::Number(number));
        if knows(x, events, row.role, key, param) != wanted {
            return false;
        }
    }
    true
}

/// The same of the row's acts.
fn is_known(alloc: Global, x: &Expanded, row: &Row) -> Result<bool, Fail> {
    let key = key_of(x, row.key).ok_or("this is no key")?;
    let run = run_of(alloc, x, row.acts)?;
    Ok(knows_values(x, run.as_slice(), &key, row))
}

#[test]
fn the_first_value_is_known(rt: HostRuntime) -> Result<(), Fail> {
    let pairs = listed(rt.alloc(), PAIR)?;
    for row in ROWS {
        assert!(rt; is_known(rt.alloc(), pairs.at(0), row)?);
    }
    Ok(())
}
