ghost use Rattle.std.specs.Prelude.{◌≡◌, length};
ghost use Rattle.bspl_types.specs.History.{IsRun};

use super::acts::{key_of, run_of};
use super::decision_rows::{CASES, Case, Fault, Row};
use super::protocols::listed;
use bspl_types::{Event, Expanded, Key, Value};
use enactment_model::{BadEvent, Conflict, Why, legal, producers, quiet, unbound};
use std::alloc::Global;
use std::test::Fail;

/// Whether the event may not follow because of the fault.
fn is_fault(why: Why, fault: Fault) -> bool {
    match (why, fault) {
        (Why::Missing { param }, Fault::Missing { param: p }) => param == p,
        (Why::Bound { param, kept }, Fault::Bound { param: p, kept: n }) => {
            param == p && kept == Value::Number(n)
        }
        (Why::Other { param, kept }, Fault::Other { param: p, kept: n }) => {
            param == p && kept == Value::Number(n)
        }
        (Why::Unsent, Fault::Unsent) => true,
        (_, _) => false,
    }
}

/// Whether the verdict is the one that the row wants.
fn is_verdict(given: Result<(), BadEvent>, row: &Row) -> bool {
    match given {
        Ok(()) => row.bad == 0,
        Err(event) => event.place == row.bad && is_fault(event.why, row.fault),
    }
}

/// Whether that is the conflict, or none if none is wanted.
fn is_conflict(given: Option<Conflict>, wanted: Option<Conflict>) -> bool {
    match (given, wanted) {
        (Some(c), Some(d)) => { c.first == d.first && c.second == d.second && c.param == d.param }
        (None, None) => true,
        (_, _) => false,
    }
}

/// Whether the four calls answer for the run as the row wants.
fn are_decided(x: &Expanded, run: &[Event], key: &Key, row: &Row) -> bool
    requires fits { IsRun x.now run.now }
    requires key { length key.now ≡ length x.now.keys }
{
    is_verdict(legal(x, run), row)
        && is_conflict(producers(x, run), row.conflict)
        && quiet(x, run, key).err().map(|loose| loose.message) == row.loose
        && unbound(x, run, key) == row.unbound
}

/// Whether the run of the row is decided as it should be.
fn is_decided(alloc: Global, x: &Expanded, row: &Row) -> Result<bool, Fail> {
    let key = key_of(x, row.key).ok_or("this is no key")?;
    let run = run_of(alloc, x, row.acts)?;
    Ok(are_decided(x, run.as_slice(), &key, row))
}

/// The same of each row of the case.
fn are_all_decided(alloc: Global, case: &Case) -> Result<bool, Fail> {
    let protocols = listed(alloc, case.protocol)?;
    for row in case.rows {
        if !is_decided(alloc, protocols.at(0), row)? {
            return Ok(false);
        }
    }
    Ok(true)
}

#[test]
fn runs_are_decided(rt: HostRuntime) -> Result<(), Fail> {
    for case in CASES {
        assert!(rt; are_all_decided(rt.alloc(), case)?);
    }
    Ok(())
}
