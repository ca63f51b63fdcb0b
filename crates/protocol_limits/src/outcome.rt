use bspl_types::{NoMemory, Seq, What};

/// What a survey of a protocol comes to.
#[derive(Drop)]
pub enum Survey {
    /// The protocol where the first cycle of references ends.
    Cycle(u32),
    /// The first count over its limit.
    Over {
        /// What is counted.
        what: What,
        /// How many there are, or the last number of 64 bits.
        count: u64,
    },
    /// All counts are within their limits.
    Within {
        /// The most references that a path has.
        depth: usize,
        /// For each protocol, whether it has a message at the end of a path.
        messages: Seq<bool>,
        /// For each protocol, whether it has a private parameter at the end of a path.
        privates: Seq<bool>,
    },
}

/// Why a document is not expanded once its protocols are sorted.
#[derive(Clone, Copy, Debug)]
pub(crate) enum LimitError {
    /// The first count over its limit.
    TooMany { what: What, count: u64 },
    /// Memory ran out.
    NoMemory,
}

impl From<NoMemory> for LimitError {
    ghost use Rattle.std.specs.Prelude.{◌≡◌};
    ghost use Rattle.protocol_limits.specs.declared.outcome.LimitError.TheVariants.{NoMemory as SpecNoMemory};

    ghost from_gives = { λ _ error. error ≡ SpecNoMemory };

    fn from(_error: NoMemory) -> LimitError {
        LimitError::NoMemory
    }
}
