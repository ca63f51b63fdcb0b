ghost use Rattle.world_run.specs.inner.Readable.{IsReadable};

use adapter::Desk;
use stamped_history::{Entry, History, local_stamps_rise};

/// The stamped history of a desk, as it is merged.
#[derive(Clone, Copy)]
pub struct DeskHistory<'a> {
    desk: &'a Desk,
    pub ghost readable: { IsReadable desk.now.store.entries },
}

impl<'a> DeskHistory<'a> {
    ghost use Rattle.std.specs.Prelude.{◌≡◌};

    /// That of the desk.
    pub fn of(desk: &'a Desk) -> DeskHistory<'a>
        ensures { result.desk.now ≡ desk.now }
    {
        // laws: the stamps of a local history rise, and a store's history is local
        local_stamps_rise();
        desk.store().is_consistent();
        DeskHistory { desk }
    }
}

impl<'a> History for DeskHistory<'a> {
    ghost entries = { λ h. h.desk.now.store.entries };

    fn len(&self) -> usize {
        self.desk.store().len() as usize
    }

    fn entry(&self, i: usize) -> Entry {
        let store = self.desk.store();
        let (event, stamp) = store.event(i as u32);
        Entry {
            event,
            stamp,
            number: store.number(i as u32),
        }
    }
}
