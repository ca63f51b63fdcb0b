ghost use Rattle.std.specs.Prelude.{IfOk};
ghost use Rattle.stamped_history.specs.Merged.{IsMerged};
ghost use Rattle.world_run.specs.World.{histories_of};

use super::desk_history::DeskHistory;
use super::world::World;
use bspl_types::{NoMemory, Run};
use list_base::Seq;
use stamped_history::merge_histories;
use std::alloc::Global;

/// All events of the world in one run, by stamp and then by role.
pub fn merge(alloc: Global, world: &World) -> Result<Run, NoMemory>
    ensures { IfOk result (IsMerged (histories_of world.now.desks)) }
{
    let mut histories = Seq::new(alloc);
    for desk in world.desks.as_slice() {
        histories.push(DeskHistory::of(desk))?;
    }
    merge_histories(alloc, histories.as_slice())
}
