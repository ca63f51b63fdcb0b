ghost use Rattle.std.specs.Prelude.{◌≡◌};

use list_base::NoMemory;

/// Why there is no verdict on a text.
#[derive(Clone, Copy, Debug, PartialEq, Eq)]
pub enum Refusal {
    /// The line, from 1, is not what is wanted there; the last one where the header or clauses are
    /// missing, or clauses are too many or without an end. A text that ends with a line feed has an
    /// empty last line, which counts.
    Line(u64),
    /// Clauses and budget together are 2^32 or more.
    TooMany,
    NoMemory,
}

impl From<NoMemory> for Refusal {
    ghost use Rattle.dimacs.specs.declared.refusal.Refusal.TheVariants as refusals;

    ghost from_gives = { λ _ refusal. refusal ≡ refusals.NoMemory };

    fn from(_error: NoMemory) -> Refusal {
        Refusal::NoMemory
    }
}
