use list_base::NoMemory;

/// Why propagation ends before it has nothing to do.
#[derive(Clone, Copy, Debug)]
pub enum Stop {
    /// The clause of the number is false.
    Falsified(u32),
    /// Memory ran out.
    NoMemory,
}

impl From<NoMemory> for Stop {
    ghost use Rattle.std.specs.Prelude.{◌≡◌};
    ghost use Rattle.order_propagator.specs.declared.stop.Stop.TheVariants.{NoMemory};

    ghost from_gives = { λ _ stop. stop ≡ NoMemory };

    fn from(_error: NoMemory) -> Stop {
        Stop::NoMemory
    }
}
