ghost use Rattle.std.specs.Prelude.{◌≡◌};

use list_base::NoMemory;

/// Why a text is not read. The line is the first bad one, counted from 1.
#[derive(Clone, Copy, Debug, PartialEq, Eq)]
pub enum HistoryRefusal {
    /// The line has not the form that is wanted there, or is missing.
    Form { line: u64 },
    /// Memory ran out.
    NoMemory,
}

impl From<NoMemory> for HistoryRefusal {
    ghost use Rattle.history_audit.specs.declared.refusal.HistoryRefusal.TheVariants as refusals;

    ghost from_gives = { λ _ refusal. refusal ≡ refusals.NoMemory };

    fn from(_error: NoMemory) -> HistoryRefusal {
        HistoryRefusal::NoMemory
    }
}
