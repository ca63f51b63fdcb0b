ghost use Rattle.bspl_types.specs.declared.event.Event.{Event};
ghost use Rattle.std.specs.Prelude.{List, ◌≤◌, length};
ghost use Rattle.report.specs.inner.Totals.{KnowsFirst, KnowsUnder};
ghost use Rattle.report.specs.WorldRows.{IsRunOfWorld};

use agent_scripts::Script;
use bspl_types::{Expanded, Key};
use world_run::{World, table};

/// How many parameters are known to some role, under all workload keys together.
pub(crate) fn count_known(x: &Expanded, script: &Script, world: &World) -> usize
    ensures { (run : List Event) → IsRunOfWorld x.now world.now.desks run →
        KnowsUnder x.now run script.now.keys result }
{
    let mut known = 0;
    for index in 0..script.count() {
        known += count_known_under(x, world, &script.key(index + 1));
    }
    known
}

/// How many parameters are known to some role under the key.
fn count_known_under(x: &Expanded, world: &World, key: &Key) -> usize
    ensures known { (run : List Event) → IsRunOfWorld x.now world.now.desks run →
        KnowsFirst x.now run key.now (length x.now.params) result }
    ensures few { result ≤ 64 }
{
    let mut known = 0;
    for param in 0..x.params.len() as u32 {
        let cell = table(world, key, param);
        known += usize::from(cell.is_some());
    }
    known
}
