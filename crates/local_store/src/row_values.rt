ghost use Rattle.std.specs.Prelude.{◌≡◌, ◌<◌, ◌≤◌, length, map};
ghost use Rattle.bspl_types.specs.Adornment.{valued};
ghost use Rattle.bspl_types.specs.Limits.{carried_limit};
ghost use Rattle.local_store.specs.inner.Acts.{event_as, value_in};
ghost use Rattle.local_store.specs.inner.Grids.{HasCells, cell_at};

use super::act::Kind;
use super::cells::Cells;
use super::filled_values::value_in;
use bspl_types::{CARRIED_LIMIT, Carried, Event, Instance, Value, Values};

/// The row's values of the parameters adorned `in` or `out`.
pub fn read_values(cells: &Cells, row: usize, carried: &[Carried]) -> Values
    requires cells { HasCells cells.now.width cells.now.rows row carried.now }
    requires few { length carried.now ≤ carried_limit }
    ensures { result ≡ map
        (λ c. value_in (cell_at cells.now.width cells.now.items row c.param))
        (valued carried.now) }
{
    let mut values = [Value::Number(0); CARRIED_LIMIT];
    let mut count = 0;
    for c in carried {
        if c.adornment.has_value() {
            values[count] = value_in(cells.at(row, c.param as usize));
            count += 1;
        }
    }
    Values::of(&values[..count])
}

/// The emission or the receipt of the instance.
pub fn event_as(kind: Kind, instance: Instance) -> Event
    ensures { result ≡ event_as kind instance }
{
    match kind {
        Kind::Emitted => Event::Emit(instance),
        Kind::Received => Event::Receive(instance),
    }
}
