ghost use Rattle.std.specs.Prelude.{◌≡◌};
ghost use Rattle.protocol_rules.specs.declared.fault.RuleFault.TheVariants as faults;

use list_base::NoMemory;

/// Why the rules of a protocol are refused, with offsets in the whole text.
#[derive(Clone, Copy, Debug, PartialEq, Eq)]
pub enum RuleFault {
    /// No token begins at that byte.
    Byte(u64),
    /// The question that begins there has more than 256 tokens: their number.
    TooLong { offset: u64, count: u64 },
    /// No rule goes on so: the offset of a word, or of the end of the line.
    Syntax(u64),
    /// Memory ran out.
    NoMemory,
}

impl From<NoMemory> for RuleFault {
    ghost from_gives = { λ _ fault. fault ≡ faults.NoMemory };

    fn from(_error: NoMemory) -> RuleFault {
        RuleFault::NoMemory
    }
}
