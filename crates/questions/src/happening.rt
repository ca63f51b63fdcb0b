ghost use Rattle.std.specs.Prelude.{◌↔◌, IsTrue};
ghost use Rattle.bspl_types.specs.History.{IsRun};
ghost use Rattle.questions.specs.Happening.{HappenedBefore, HasHappened};
ghost use Rattle.questions.specs.inner.Moment.{IsBetween};

use super::question::Happening;
use bspl_types::{Event, Expanded, Key};
use enactment_model::{is_bound, is_emitted_under, is_received_under};
use role_knowledge::knows;

/// Whether it has happened in the enactment of the key.
pub(crate) fn has_happened(x: &Expanded, run: &[Event], key: &Key, h: Happening) -> bool
    requires { IsRun x.now run.now }
    ensures { IsTrue result ↔ HasHappened x.now run.now key.now h }
{
    match h {
        Happening::Sent(m) => is_emitted_under(run, key, m),
        Happening::Received(m) => is_received_under(run, key, m),
        Happening::Knows { role, param } => knows(x, run, role, key, param).is_some(),
        Happening::Bound(param) => is_bound(x, run, key, param),
    }
}

/// Whether at some moment the one had happened, and the other had not.
pub(crate) fn happened_before(
    x: &Expanded,
    run: &[Event],
    key: &Key,
    one: Happening,
    other: Happening,
) -> bool
    requires { IsRun x.now run.now }
    ensures { IsTrue result ↔ HappenedBefore x.now run.now key.now one other }
{
    for moment in 0..run.len() + 1 {
        if is_between(x, &run[..moment], key, one, other) {
            return true;
        }
    }
    false
}

/// Whether at the end of the run the one has happened, and the other has not.
fn is_between(x: &Expanded, run: &[Event], key: &Key, one: Happening, other: Happening) -> bool
    requires { IsRun x.now run.now }
    ensures { IsTrue result ↔ IsBetween x.now run.now key.now one other }
{
    has_happened(x, run, key, one) && !has_happened(x, run, key, other)
}
