ghost use Rattle.std.specs.Prelude.{◌≡◌, ◌<◌, length, IfOk};
ghost use Rattle.std.specs.List.{All};
ghost use Rattle.bspl_types.specs.History.{IsRun};
ghost use Rattle.report.specs.Keys.{keys_of, reported_keys};

use bspl_types::{Expanded, Key, equal_values_are_one};
use list_base::{NoMemory, Seq};
use run_index::RunIndex;
use std::alloc::Global;
use witness_replay::key_of_ones;

/// The keys that are reported.
pub(crate) fn reported_keys(
    alloc: Global,
    x: &Expanded,
    index: &RunIndex,
) -> Result<Seq<Key>, NoMemory>
    requires some { 0 < length x.now.keys }
    requires fits { IsRun x.now index.now }
    ensures keys { IfOk result (λ keys. keys ≡ reported_keys x.now index.now) }
    ensures lengths { IfOk result (λ keys. All (λ key. length key ≡ length x.now.keys) keys) }
{
    let mut keys = keys_of(alloc, index)?;
    if index.events().is_empty() {
        keys.push(key_of_ones(x))?;
    }
    Ok(keys)
}

/// The keys of the events, each once, in order of first event.
fn keys_of(alloc: Global, index: &RunIndex) -> Result<Seq<Key>, NoMemory>
    ensures { IfOk result (λ keys. keys ≡ keys_of index.now) }
{
    // law: keys that the test finds equal are one key
    equal_values_are_one();
    let mut keys = Seq::new(alloc);
    for (position, event) in index.events().iter().enumerate() {
        if index.is_first(position) {
            keys.push(event.instance().key)?;
        }
    }
    Ok(keys)
}
