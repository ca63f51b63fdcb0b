ghost use Rattle.std.specs.Prelude.{◌≡◌};

use list_base::NoMemory;

/// Why a line says nothing.
#[derive(Clone, Copy, Debug, PartialEq, Eq)]
pub(crate) enum LineError {
    /// It has not the form of a line of the table.
    Form,
    /// It has the form, and a name that is not declared, or not as it has to be.
    Unknown,
    /// Memory ran out.
    NoMemory,
}

impl From<NoMemory> for LineError {
    ghost use Rattle.script_text.specs.declared.line_error.LineError.TheVariants as errors;

    ghost from_gives = { λ _ error. error ≡ errors.NoMemory };

    fn from(_error: NoMemory) -> LineError {
        LineError::NoMemory
    }
}
