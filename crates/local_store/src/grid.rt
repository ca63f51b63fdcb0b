ghost use Rattle.std.specs.Prelude.{◌≡◌, ◌+◌, ◌*◌, ◌<◌, ◌≤◌, ◌++◌, ◌⊎◌, [], length, slice_get};
ghost use Rattle.std.specs.Prelude.{slice_set, Some, OnOk, OnErr, max};
ghost use Rattle.local_store.specs.inner.Grids.{RowsGrow};

use list_base::{NoMemory, Seq};
use std::alloc::Global;

/// Items in rows of one width, one row after another.
#[derive(Drop)]
pub struct Grid<T> {
    pub items: Seq<T>,
    pub width: usize,
    pub rows: usize,
    ghost covers: { length items ≡ rows * width },
}

impl<T: Copy> Grid<T> {
    /// A grid without rows.
    pub fn new(alloc: Global, width: usize) -> Grid<T>
        ensures items { result.items ≡ [] }
        ensures width { result.width ≡ width }
        ensures rows { result.rows ≡ 0 }
    {
        Grid {
            items: Seq::new(alloc),
            width,
            rows: 0,
        }
    }

    /// The item in the row and the column, from 0.
    pub fn at(&self, row: usize, column: usize) -> T
        requires row { row < self.now.rows }
        requires column { column < self.now.width }
        ensures { slice_get self.now.items (row * self.now.width + column) ≡ Some result }
    {
        *self.items.at(self.index_of(row, column))
    }

    /// The index of the item in the row and the column.
    fn index_of(&self, row: usize, column: usize) -> usize
        requires row { row < self.now.rows }
        requires column { column < self.now.width }
        ensures index { result ≡ row * self.now.width + column }
        ensures within { result < length self.now.items }
    {
        prove!(self.items.len() > row * self.width + column);
        row * self.width + column
    }

    /// Puts an item into the row and the column.
    pub fn set(&mut self, row: usize, column: usize, item: T)
        requires row { row < self.old.rows }
        requires column { column < self.old.width }
        ensures items { self.new.items ≡
            slice_set self.old.items (row * self.old.width + column) item }
        ensures width { self.new.width ≡ self.old.width }
        ensures rows { self.new.rows ≡ self.old.rows }
        ensures within { row * self.old.width + column < length self.old.items }
    {
        let index = self.index_of(row, column);
        let _replaced = self.items.replace(index, item);
    }

    /// Makes sure that there are this many rows, by a blank one at the end if there are not.
    pub fn cover(&mut self, rows: usize, blank: &[T]) -> Result<(), NoMemory>
        requires row { length blank.now ≡ self.old.width }
        requires next { rows ≤ self.old.rows + 1 }
        requires few { rows < 4294967296 }
        ensures items { (self.new.items ≡ self.old.items) ⊎
            (self.new.items ≡ self.old.items ++ blank.now) }
        ensures rows { OnOk result (rows ≤ self.new.rows) }
        ensures most { self.new.rows ≤ max self.old.rows rows }
        ensures grown { RowsGrow self.old.width self.old.rows self.new.width self.new.rows }
    {
        if self.rows < rows {
            self.add_row(blank)?;
        }
        Ok(())
    }

    /// Puts a row at the end.
    pub fn add_row(&mut self, row: &[T]) -> Result<(), NoMemory>
        requires row { length row.now ≡ self.old.width }
        requires few { self.old.rows < 4294967295 }
        ensures items { OnOk result (self.new.items ≡ self.old.items ++ row.now) }
        ensures rows { OnOk result (self.new.rows ≡ self.old.rows + 1) }
        ensures width { self.new.width ≡ self.old.width }
        ensures err { OnErr result (self.new ≡ self.old) }
    {
        self.items.append(row)?;
        self.rows += 1;
        Ok(())
    }
}
