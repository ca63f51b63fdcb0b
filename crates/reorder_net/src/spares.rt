ghost use Rattle.std.specs.Prelude.{◌≡◌, IfOk};

use super::parcel::Parcel;
use bspl_types::Envelope;
use list_base::{NoMemory, Seq};
use std::alloc::Global;

/// How many parcels are kept.
const ROOM: usize = 16_384;

/// Parcels whose envelopes were taken out, for other envelopes. A role that takes about as much as it
/// puts then takes no memory for it, and gives none back to the heap of another thread.
#[derive(Drop)]
pub struct Spares {
    parcels: Seq<Parcel>,
    /// Where other parcels are made.
    alloc: Global,
}

impl Spares {
    /// No parcel is kept yet.
    pub fn new(alloc: Global) -> Spares {
        Spares {
            parcels: Seq::new(alloc),
            alloc,
        }
    }

    /// Keeps the parcel, or drops it if there are enough, or no memory to keep it.
    pub fn keep(&mut self, parcel: Parcel) {
        if self.parcels.len() < ROOM {
            let _kept = self.parcels.push(parcel);
        }
    }

    /// A parcel with the envelope: a kept one, or a new one if none is kept.
    pub fn pack(&mut self, e: &Envelope) -> Result<Parcel, NoMemory>
        ensures { IfOk result (λ p. p ≡ e.now) }
    {
        let Some(mut parcel) = self.parcels.pop() else {
            return Parcel::of(self.alloc, e);
        };
        parcel.refill(e);
        Ok(parcel)
    }
}
