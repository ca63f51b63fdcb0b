use bspl_io::{Failed, Trouble};
use list_base::NoMemory;
use role_knowledge::Block;

/// Why a store was not started from a disk.
#[derive(Clone, Copy, Debug, PartialEq, Eq)]
pub enum StartRefusal {
    /// The first open place that the store cannot have written.
    Alien { place: u32 },
    /// A call of the disk failed, and was counted.
    DiskFault,
    /// Memory ran out.
    NoMemory,
}

impl From<Failed> for StartRefusal {
    ghost use Rattle.std.specs.Prelude.{◌≡◌};
    ghost use Rattle.durable_store.specs.declared.refusals.StartRefusal.TheVariants.{DiskFault};

    ghost from_gives = { λ _ refusal. refusal ≡ DiskFault };

    fn from(_failed: Failed) -> StartRefusal {
        StartRefusal::DiskFault
    }
}

impl From<NoMemory> for StartRefusal {
    ghost use Rattle.std.specs.Prelude.{◌≡◌};
    ghost use Rattle.durable_store.specs.declared.refusals.StartRefusal.TheVariants.{NoMemory};

    ghost from_gives = { λ _ refusal. refusal ≡ NoMemory };

    fn from(_error: NoMemory) -> StartRefusal {
        StartRefusal::NoMemory
    }
}

impl From<Trouble> for StartRefusal {
    ghost use Rattle.std.specs.Prelude.{◌≡◌};
    ghost use Rattle.durable_store.specs.Start.{start_refusal};

    ghost from_gives = { λ trouble refusal. refusal ≡ start_refusal trouble };

    fn from(trouble: Trouble) -> StartRefusal {
        match trouble {
            Trouble::Failed => StartRefusal::DiskFault,
            Trouble::NoMemory => StartRefusal::NoMemory,
        }
    }
}

/// Why an emission was not acknowledged.
#[derive(Clone, Copy, Debug)]
pub enum EmitRefusal {
    /// An earlier call was cut short: the store has to be started again from its disk.
    Spent,
    /// There is no place for another event.
    Full,
    /// What the role knows does not permit the emission.
    Blocked(Block),
    /// A call of the disk failed, and was counted.
    DiskFault,
    /// Memory ran out.
    NoMemory,
}

/// Why a message was not taken.
#[derive(Clone, Copy, Debug, PartialEq, Eq)]
pub enum ReceiveRefusal {
    /// An earlier call was cut short: the store has to be started again from its disk.
    Spent,
    /// There is no place for another event.
    Full,
    /// A call of the disk failed, and was counted.
    DiskFault,
    /// Memory ran out.
    NoMemory,
}
