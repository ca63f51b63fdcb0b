ghost use Rattle.std.specs.Prelude.{◌≡◌, ◌<◌};
ghost use Rattle.std.specs.List.{zip};
ghost use Rattle.bspl_types.specs.Adornment.{valued};
ghost use Rattle.local_store.specs.inner.Difference.{difference, first_difference};
ghost use Rattle.local_store.specs.inner.Grids.{HasCells, cell_at};

use super::cells::Cells;
use super::receipt::Receipt;
use bspl_types::{Carried, Value};

/// The first parameter adorned `in` or `out` whose cell of the row has another value.
pub fn first_difference(
    cells: &Cells,
    row: usize,
    carried: &[Carried],
    values: &[Value],
) -> Option<Receipt>
    requires { HasCells cells.now.width cells.now.rows row carried.now }
    ensures { result ≡ first_difference (cell_at cells.now.width cells.now.items row)
        (zip (valued carried.now) values.now) }
{
    let mut remaining = values;
    for c in carried {
        if c.adornment.has_value() {
            let Some((value, rest)) = remaining.split_first() else {
                return None;
            };
            let found = difference(cells.at(row, c.param as usize), *c, *value);
            if found.is_some() {
                return found;
            }
            remaining = rest;
        }
    }
    None
}

/// The answer to this value of the parameter, if the cell has another one.
fn difference(cell: Option<Value>, c: Carried, arrived: Value) -> Option<Receipt>
    ensures { result ≡ difference cell (c, arrived) }
{
    match cell {
        None => None,
        Some(kept) => {
            if kept.same(&arrived) {
                None
            } else {
                Some(Receipt::Differs {
                    param: c.param,
                    kept,
                    arrived,
                })
            }
        }
    }
}
