use super::Name;
use list_base::NoMemory;
use std::alloc::{AllocError, AllocFailed};

/// What is counted against a limit.
#[derive(Clone, Copy, Debug, PartialEq, Eq)]
pub enum What {
    /// Bytes of a protocol text.
    Text,
    /// Protocols that are declared.
    Protocols,
    /// References from the top protocol downwards.
    Depth,
    /// Roles of the top protocol.
    Roles,
    /// Parameters of the expansion.
    Parameters,
    /// Keys.
    Keys,
    /// Parameters of one message.
    Carried,
    /// Messages of the expansion.
    Messages,
}

/// Why a protocol text is refused. Each variant but the last is printed with its code.
#[derive(Drop)]
pub enum Refusal {
    /// E1: no token begins at that byte.
    Byte { offset: u64 },
    /// E2: no valid protocol has this token here, or the text ends too early.
    Syntax { offset: u64 },
    /// E3: no protocol has the name.
    NoProtocol { name: Name },
    /// E4: the name is declared a second time.
    Duplicate { offset: u64 },
    /// E5: the name is not declared.
    Unknown { offset: u64 },
    /// E6: a reference has another number of roles or of parameters than declared.
    Arity { offset: u64 },
    /// E7: `any` or `opt`, or an adornment in a reference that differs from the declared one.
    BadAdornment { offset: u64 },
    /// E8: the protocol refers to itself.
    Recursion { name: Name },
    /// E9: there are more than the limit.
    Limit { what: What, count: u64 },
    /// E10: no public parameter of the protocol is a key.
    NoKey,
    /// E11: the message does not bind the key parameter.
    NotWholeKey { message: Name, param: Name },
    /// E12: the word `key` on a name that is not declared as a key.
    ForeignKey { offset: u64 },
    /// E13: sender and receiver are one role.
    SelfMessage { message: Name },
    /// E14: the message has the parameter twice.
    RepeatedParam { message: Name, param: Name },
    /// Memory ran out.
    NoMemory,
}

impl From<NoMemory> for Refusal {
    ghost use Rattle.std.specs.Prelude.{◌≡◌};
    ghost use Rattle.bspl_types.specs.declared.refusals.Refusal.TheVariants.{NoMemory as SpecNoMemory};

    ghost from_gives = { λ _ refusal. refusal ≡ SpecNoMemory };

    fn from(_error: NoMemory) -> Refusal {
        Refusal::NoMemory
    }
}

impl From<AllocError> for Refusal {
    ghost use Rattle.std.specs.Prelude.{◌≡◌};
    ghost use Rattle.bspl_types.specs.declared.refusals.Refusal.TheVariants.{NoMemory};

    ghost from_gives = { λ _ refusal. refusal ≡ NoMemory };

    fn from(_error: AllocError) -> Refusal {
        Refusal::NoMemory
    }
}

impl<T: Drop> From<AllocFailed<T>> for Refusal {
    ghost use Rattle.std.specs.Prelude.{◌≡◌};
    ghost use Rattle.bspl_types.specs.declared.refusals.Refusal.TheVariants.{NoMemory};

    ghost from_gives = { λ _ refusal. refusal ≡ NoMemory };

    fn from(_error: AllocFailed<T>) -> Refusal {
        Refusal::NoMemory
    }
}
