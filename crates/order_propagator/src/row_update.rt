ghost use Rattle.std.specs.Prelude.{◌<◌, ◌^◌, length, OnOk};
ghost use Rattle.sat_trail.specs.Trail.{IsTrail};
ghost use Rattle.order_propagator.specs.inner.Rows.{HaveAll, HaveFirst};

use super::order_rows::OrderRows;
use list_base::NoMemory;
use sat_trail::Trail;

/// Puts the literals of the trail that came since into the rows.
pub fn catch_up(rows: &mut OrderRows, trail: &Trail) -> Result<(), NoMemory>
    requires sound { IsTrail trail.now }
    requires first { HaveFirst rows.old.order rows.old trail.now.entries }
    ensures first { HaveFirst rows.old.order rows.new trail.now.entries }
    ensures all { OnOk result (HaveAll rows.old.order rows.new trail.now.entries) }
{
    let count = trail.len() as usize;
    while rows.len() < count {
        let lit = trail.at(rows.len() as u32);
        rows.push(lit)?;
    }
    Ok(())
}
