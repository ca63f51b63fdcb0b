ghost use Rattle.std.specs.Prelude.{◌≡◌, IfOk};

use bspl_types::Envelope;
use list_base::NoMemory;
use std::alloc::Global;
use std::marker::Model;

/// An envelope in a block of memory of its own, so that a mailbox moves a pointer alone. Contracts
/// see the envelope.
#[derive(Drop)]
pub struct Parcel {
    boxed: Box<Envelope>,
}

impl Model for Parcel {
    ghost use Rattle.bspl_types.specs.declared.envelope.Envelope.{Envelope as SpecEnvelope};

    ghost Value = { SpecEnvelope };

    ghost view = { λ p. p.boxed.value };
}

impl Parcel {
    /// A parcel with the envelope.
    pub(crate) fn of(alloc: Global, e: &Envelope) -> Result<Parcel, NoMemory>
        ensures { IfOk result (λ p. p ≡ e.now) }
    {
        let boxed = Box::new(alloc, *e)?;
        Ok(Parcel { boxed })
    }

    /// Puts the envelope in place of the one that the parcel has.
    pub(crate) fn refill(&mut self, e: &Envelope)
        ensures { self.new ≡ e.now }
    {
        *self.boxed = *e;
    }

    /// Lends the envelope.
    pub fn envelope(&self) -> &Envelope
        ensures { result.now ≡ self.now }
    {
        self.boxed.as_ref()
    }
}
