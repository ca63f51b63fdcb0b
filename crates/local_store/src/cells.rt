ghost use Rattle.std.specs.Prelude.{◌≡◌, ◌+◌, ◌*◌, ◌<◌, ◌≤◌, ◌++◌, ◌⊎◌, [], length, replicate};
ghost use Rattle.std.specs.Prelude.{slice_get, slice_set, None, Some, OnOk, OnErr};
ghost use Rattle.local_store.specs.inner.Grids.{RowsGrow};

use super::grid::Grid;
use bspl_types::{PARAM_LIMIT, Value};
use list_base::NoMemory;
use std::alloc::Global;
use std::marker::Model;

/// A value in place of one that is missing.
const BLANK: Value = Value::Number(0);

/// A cell for each parameter, in rows of one width. Which cells have a value is kept apart from the
/// values, which are larger: an agent asks far more often whether a value is there than which one.
#[derive(Drop)]
pub struct Cells {
    filled: Grid<bool>,
    values: Grid<Value>,
}

impl Model for Cells {
    ghost use Rattle.std.specs.Prelude.{◌≡◌, ◌≤◌};
    ghost use Rattle.local_store.specs.inner.Cells.{CellRows, cells_of};

    ghost Value = { CellRows };

    ghost view = { λ a. record {
      items = cells_of a.filled.items a.values.items;
      width = a.filled.width;
      rows = a.filled.rows;
    } };

    ghost invariant = { λ a. (a.values.width ≡ a.filled.width) × (a.filled.rows ≤ a.values.rows) };
}

impl Cells {
    /// No rows.
    pub fn new(alloc: Global, width: usize) -> Cells
        ensures items { result.items ≡ [] }
        ensures width { result.width ≡ width }
        ensures rows { result.rows ≡ 0 }
    {
        Cells {
            filled: Grid::new(alloc, width),
            values: Grid::new(alloc, width),
        }
    }

    /// How many cells a row has.
    pub fn width(&self) -> usize
        ensures width { result ≡ self.now.width }
        ensures covers { length self.now.items ≡ self.now.rows * self.now.width }
    {
        self.filled.width
    }

    /// The value in the cell of the row and the column, from 0, if it has one.
    pub fn at(&self, row: usize, column: usize) -> Option<Value>
        requires row { row < self.now.rows }
        requires column { column < self.now.width }
        ensures { slice_get self.now.items (row * self.now.width + column) ≡ Some result }
    {
        if self.filled.at(row, column) {
            Some(self.values.at(row, column))
        } else {
            None
        }
    }

    /// Puts a value into the cell of the row and the column.
    pub fn fill(&mut self, row: usize, column: usize, value: Value)
        requires row { row < self.old.rows }
        requires column { column < self.old.width }
        ensures items { self.new.items ≡
            slice_set self.old.items (row * self.old.width + column) (Some value) }
        ensures width { self.new.width ≡ self.old.width }
        ensures rows { self.new.rows ≡ self.old.rows }
    {
        self.values.set(row, column, value);
        self.filled.set(row, column, true);
    }

    /// Makes sure that there are this many rows, by a blank one at the end if there are not.
    pub fn cover(&mut self, rows: usize) -> Result<(), NoMemory>
        requires few { rows < 4294967296 }
        requires next { rows ≤ self.old.rows + 1 }
        requires narrow { self.old.width ≤ 64 }
        ensures items { (self.new.items ≡ self.old.items) ⊎
            (self.new.items ≡ self.old.items ++ replicate self.old.width None) }
        ensures rows { OnOk result (rows ≤ self.new.rows) }
        ensures grown { RowsGrow self.old.width self.old.rows self.new.width self.new.rows }
    {
        let width = self.filled.width;
        self.values.cover(rows, &[BLANK; PARAM_LIMIT][..width])?;
        self.filled.cover(rows, &[false; PARAM_LIMIT][..width])
    }
}
