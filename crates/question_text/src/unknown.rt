use bspl_types::Name;
use list_base::NoMemory;
use std::alloc::AllocFailed;

/// A name in a question that the protocol does not have.
#[derive(Drop)]
pub enum UnknownName {
    /// No message has the name.
    Message(Name),
    /// No role has it.
    Role(Name),
    /// No parameter has it.
    Parameter(Name),
    /// Memory ran out.
    NoMemory,
}

impl From<NoMemory> for UnknownName {
    ghost use Rattle.std.specs.Prelude.{◌≡◌};
    ghost use Rattle.question_text.specs.declared.unknown.UnknownName.TheVariants as unknown;

    ghost from_gives = { λ _ name. name ≡ unknown.NoMemory };

    fn from(_error: NoMemory) -> UnknownName {
        UnknownName::NoMemory
    }
}

impl<T: Drop> From<AllocFailed<T>> for UnknownName {
    ghost use Rattle.std.specs.Prelude.{◌≡◌};
    ghost use Rattle.question_text.specs.declared.unknown.UnknownName.TheVariants as unknown;

    ghost from_gives = { λ _ name. name ≡ unknown.NoMemory };

    fn from(_error: AllocFailed<T>) -> UnknownName {
        UnknownName::NoMemory
    }
}
