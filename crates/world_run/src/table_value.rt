ghost use Rattle.bspl_types.specs.declared.event.Event.{Event};
ghost use Rattle.bspl_types.specs.declared.expanded.Expanded.{Expanded};
ghost use Rattle.std.specs.Prelude.{List};
ghost use Rattle.stamped_history.specs.Explained.{AreLocal};
ghost use Rattle.stamped_history.specs.TableValue.{IsTableValue};
ghost use Rattle.world_run.specs.World.{AreDesksOf, HasHistories, histories_of};

use super::world::World;
use bspl_types::{Key, Value, equal_values_are_one};

/// The value of the parameter that some store of the world has under the key, the lowest role's
/// first. In a finished world of a safe protocol it is the one value that any store has.
pub fn table(world: &World, key: &Key, param: u32) -> Option<Value>
    ensures { (x : Expanded) (run : List Event) → AreDesksOf x world.now.desks →
        AreLocal x (histories_of world.now.desks) → HasHistories x world.now.desks run →
        IsTableValue x run key.now param result }
{
    // law: keys that the test finds equal are one key
    equal_values_are_one();
    for desk in world.desks.as_slice() {
        if let Some(value) = desk.store().value(key, param) {
            return Some(value);
        }
    }
    None
}
