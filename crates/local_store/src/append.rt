ghost use Rattle.std.specs.Prelude.{◌≡◌};
ghost use Rattle.local_store.specs.State.{with_entry};
ghost use Rattle.local_store.specs.inner.Acts.{event_as};
ghost use Rattle.local_store.specs.inner.Appended.{IsAppendable};

use super::act::{Act, Kind};
use super::bound_cells::bind_all;
use super::store::Store;
use bspl_types::Instance;
use role_knowledge::answers_once;

impl Store {
    /// Appends an event whose instance is under the row's key.
    pub(crate) fn append(&mut self, kind: Kind, row: usize, i: &Instance, stamp: u64, number: u32)
        requires { IsAppendable self.old kind row i.now stamp number }
        ensures { self.new ≡ with_entry self.old (event_as kind i.now) stamp number }
    {
        // law: an event makes one value of a parameter known
        answers_once();
        let x = self.admitted.expanded();
        let carried = x.messages.at(i.message as usize).carried.as_slice();
        // the cells fill their rows
        let _width = self.cells.width();
        bind_all(&mut self.cells, row, carried, i.values.as_slice());
        self.marks.set(row, i.message as usize, true);
        self.log.push(Act {
            kind,
            message: i.message,
            row: row as u32,
            stamp,
            number,
        });
        self.clock = stamp;
    }
}
