ghost use Rattle.std.specs.Prelude.{◌≡◌, ◌++◌, List, IfOk, OnOk};
ghost use Rattle.bspl_types.specs.declared.event.Event.{Event};
ghost use Rattle.report.specs.WorldRows.{AppendsRows, IsRunOfWorld};
ghost use Rattle.report.specs.WorldText.{AreCells};

use agent_scripts::Script;
use bspl_types::{Expanded, Key, Value};
use list_base::{Bytes, NoMemory, Seq};
use std::alloc::Global;
use world_run::{World, table};

/// A way to write the rows of a world.
pub trait RowWriter {
    ghost use Rattle.report.specs.WorldRows.{RowForm};

    /// What is written of a row.
    ghost form: { Self → RowForm };

    /// Appends the row of a workload number, with what the roles know of each parameter.
    fn push_row(
        &self,
        text: &mut Bytes,
        number: u64,
        cells: &[Option<Value>],
    ) -> Result<(), NoMemory>
        ensures { OnOk result (text.new ≡ text.old ++ form self.now (number, cells.now)) };
}

/// Appends a row for each workload key.
pub fn push_rows<W: RowWriter>(
    alloc: Global,
    text: &mut Bytes,
    x: &Expanded,
    script: &Script,
    world: &World,
    writer: &W,
) -> Result<(), NoMemory>
    ensures { OnOk result ((run : List Event) → IsRunOfWorld x.now world.now.desks run →
        AppendsRows (W.form writer.now) x.now run script.now.keys text.old text.new) }
{
    for index in 0..script.count() {
        let number = index + 1;
        let cells = row_cells(alloc, x, world, &script.key(number))?;
        writer.push_row(text, number, cells.as_slice())?;
    }
    Ok(())
}

/// What the roles know of each parameter under the key.
fn row_cells(
    alloc: Global,
    x: &Expanded,
    world: &World,
    key: &Key,
) -> Result<Seq<Option<Value>>, NoMemory>
    ensures { IfOk result (λ cells. (run : List Event) →
        IsRunOfWorld x.now world.now.desks run → AreCells x.now run key.now cells) }
{
    let mut cells = Seq::with_room(alloc, x.params.len())?;
    for param in 0..x.params.len() as u32 {
        cells.push(table(world, key, param))?;
    }
    Ok(cells)
}
