use list_base::NoMemory;

/// Why a log is not accepted. Steps, links and items count from 1.
#[derive(Clone, Copy, Debug, PartialEq, Eq)]
pub enum Reject {
    /// The step names a number that is of no live clause of the formula or of an earlier step.
    NoClause { step: u32 },
    /// The link's pivot is not in the clause so far, or its negation not in the link's clause.
    NoPivot { step: u32, link: u64 },
    /// The item-th number of the removal after `after` steps is of no live clause.
    NoDrop { after: u32, item: u64 },
    /// All steps resolve, all removals name live clauses, and no clause is empty.
    NotEmpty,
    /// Memory ran out.
    NoMemory,
}

impl From<NoMemory> for Reject {
    ghost use Rattle.std.specs.Prelude.{◌≡◌};
    ghost use Rattle.log_checker.specs.declared.refusal.Reject.TheVariants as rejects;

    ghost from_gives = { λ _ reject. reject ≡ rejects.NoMemory };

    fn from(_error: NoMemory) -> Reject {
        Reject::NoMemory
    }
}

/// Why a chain has no clause.
#[derive(Clone, Copy, Debug, PartialEq, Eq)]
pub enum ChainError {
    /// A number is of no clause.
    NoClause,
    /// The link counts from 1.
    NoPivot { link: u64 },
    /// Memory ran out.
    NoMemory,
}

impl From<NoMemory> for ChainError {
    ghost use Rattle.std.specs.Prelude.{◌≡◌};
    ghost use Rattle.log_checker.specs.declared.refusal.ChainError.TheVariants as errors;

    ghost from_gives = { λ _ error. error ≡ errors.NoMemory };

    fn from(_error: NoMemory) -> ChainError {
        ChainError::NoMemory
    }
}
