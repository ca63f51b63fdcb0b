ghost use Rattle.std.specs.Prelude.{◌≡◌, ◌<◌};
ghost use Rattle.std.specs.List.{zip};
ghost use Rattle.bspl_types.specs.Adornment.{valued};
ghost use Rattle.local_store.specs.inner.Grids.{HasCells, bound};

use super::cells::Cells;
use bspl_types::{Carried, Value};

/// Puts the value of each parameter adorned `in` or `out` into its cell of the row.
pub fn bind_all(cells: &mut Cells, row: usize, carried: &[Carried], values: &[Value])
    requires { HasCells cells.old.width cells.old.rows row carried.now }
    ensures items { cells.new.items ≡
        bound cells.old.width row cells.old.items (zip (valued carried.now) values.now) }
    ensures width { cells.new.width ≡ cells.old.width }
    ensures rows { cells.new.rows ≡ cells.old.rows }
{
    let mut remaining = values;
    for c in carried {
        if c.adornment.has_value() {
            let Some((value, rest)) = remaining.split_first() else {
                return;
            };
            cells.fill(row, c.param as usize, *value);
            remaining = rest;
        }
    }
}
