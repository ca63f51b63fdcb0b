ghost use Rattle.std.specs.Prelude.{◌≡◌};

use list_base::NoMemory;

/// Why a text is not read. The line is the first bad one, counted from 1.
#[derive(Clone, Copy, Debug, PartialEq, Eq)]
pub enum RunRefusal {
    /// The line has not the form that is wanted there, or is missing.
    Form { line: u64 },
    /// Memory ran out.
    NoMemory,
}

impl From<NoMemory> for RunRefusal {
    ghost use Rattle.run_text.specs.declared.refusal.RunRefusal.TheVariants as refusals;

    ghost from_gives = { λ _ refusal. refusal ≡ refusals.NoMemory };

    fn from(_error: NoMemory) -> RunRefusal {
        RunRefusal::NoMemory
    }
}
