ghost use Rattle.std.specs.Prelude.{◌≡◌, ⊤, IfOk};
ghost use Rattle.bspl_types.specs.History.{instance_of, IsRun};
ghost use Rattle.run_index.specs.inner.Failures.{IsFirstFailure};

use super::demand::{Demand, meets};
use super::facts::Facts;
use super::index::RunIndex;
use bspl_types::{Expanded, Key};
use list_base::NoMemory;
use std::alloc::Global;

/// The position of the first event that does not meet the demand, or the length of the run.
///
/// It goes over the enactments one by one, so that the facts of one alone are kept at a time.
pub(crate) fn first_failure(
    alloc: Global,
    x: &Expanded,
    index: &RunIndex,
    demand: Demand,
) -> Result<usize, NoMemory>
    requires { IsRun x.now index.now }
    ensures { IfOk result (IsFirstFailure x.now demand index.now (λ _. ⊤)) }
{
    let run = index.events();
    let mut least = run.len();
    for start in 0..run.len() {
        if index.is_first(start) {
            let failure = failure_under(alloc, x, index, &run[start].instance().key, demand)?;
            least = least.min(failure);
        }
    }
    Ok(least)
}

/// The same among the events under the key.
fn failure_under(
    alloc: Global,
    x: &Expanded,
    index: &RunIndex,
    key: &Key,
    demand: Demand,
) -> Result<usize, NoMemory>
    requires { IsRun x.now index.now }
    ensures { IfOk result
        (IsFirstFailure x.now demand index.now (λ e. (instance_of e).key ≡ key.now)) }
{
    let run = index.events();
    let mut facts = Facts::new(alloc);
    let mut position = index.first(key);
    while position < run.len() {
        let event = &run[position];
        if !meets(x, demand, index, &facts, position) {
            return Ok(position);
        }
        facts.learn(x, event)?;
        position = index.next(position);
    }
    Ok(position)
}
