ghost use Rattle.std.specs.Prelude.{◌≡◌, ◌∷◌, [], ◌≤◌, length};
ghost use Rattle.bspl_types.specs.declared.event.Event.{Event};
ghost use Rattle.local_store.specs.Outline.{outline_of};
ghost use Rattle.local_store.specs.State.{acts_of};
ghost use Rattle.world_run.specs.World.{AreDesksOf};
ghost use Rattle.report.specs.WorldCounts.{no_count};
ghost use Rattle.report.specs.inner.Counts.{acts_of_all};
ghost use Rattle.report.specs.inner.Totals.{GrowsBy, HasRoom};

use super::count::Count;
use bspl_types::Expanded;
use local_store::{Kind, Store};
use world_run::World;

/// How many emissions and receptions all stores have.
pub(crate) fn count_all(x: &Expanded, world: &World) -> Count
    requires { AreDesksOf x.now world.now.desks }
    ensures { GrowsBy (acts_of_all world.now.desks) no_count result }
{
    let mut total = Count {
        sent: 0,
        received: 0,
    };
    for role in 0..x.roles.len() as u32 {
        add_all(&mut total, world.state(role).store());
    }
    total
}

/// Counts the events of the store too.
fn add_all(total: &mut Count, store: &Store)
    requires { HasRoom 4294967295 total.old }
    ensures grows { GrowsBy (acts_of store.now) total.old total.new }
    ensures few { length store.now.entries ≤ 4294967295 }
{
    for i in 0..store.len() {
        add_one(total, store.outline(i).0);
    }
}

/// Counts the event of that kind too.
fn add_one(total: &mut Count, kind: Kind)
    requires { HasRoom 1 total.old }
    ensures { (event : Event) → (outline_of event).0 ≡ kind →
        GrowsBy (event ∷ []) total.old total.new }
{
    match kind {
        Kind::Emitted => total.sent += 1,
        Kind::Received => total.received += 1,
    }
}
