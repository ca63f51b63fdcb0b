ghost use Rattle.std.specs.Prelude.{◌≡◌};

use list_base::NoMemory;

/// Why a text is not read. The line is the first bad one, counted from 1.
#[derive(Clone, Copy, Debug, PartialEq, Eq)]
pub enum LogRefusal {
    /// The line has not the form that is wanted there, or is missing.
    Form { line: u64 },
    /// The line has its form, and a number in it is 0 or over 2,147,483,647.
    Number { line: u64 },
    /// Memory ran out.
    NoMemory,
}

impl From<NoMemory> for LogRefusal {
    ghost use Rattle.refutation_log.specs.declared.refusal.LogRefusal.TheVariants as refusals;

    ghost from_gives = { λ _ refusal. refusal ≡ refusals.NoMemory };

    fn from(_error: NoMemory) -> LogRefusal {
        LogRefusal::NoMemory
    }
}
