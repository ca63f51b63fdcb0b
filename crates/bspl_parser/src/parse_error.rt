ghost use Rattle.std.specs.Prelude.{◌≡◌};
ghost use Rattle.bspl_parser.specs.declared.parse_error.ParseError.TheVariants.{Invalid};
ghost use Rattle.bspl_parser.specs.declared.parse_error.ParseError.TheVariants.{NoMemory as SpecNoMemory};

use bspl_types::NoMemory;

/// Where a text stops being the beginning of a valid one.
#[derive(Clone, Copy)]
pub enum ErrorPosition {
    /// At a token that no valid text can have there: its offset.
    At(u64),
    /// At the end, where more has to come.
    End,
}

/// Why reading stopped.
#[derive(Clone, Copy)]
pub enum ParseError {
    /// Memory ran out.
    NoMemory,
    /// The text is invalid from that position on.
    Invalid(ErrorPosition),
}

impl From<ErrorPosition> for ParseError {
    ghost from_gives = { λ position error. error ≡ Invalid position };

    fn from(position: ErrorPosition) -> ParseError {
        ParseError::Invalid(position)
    }
}

impl From<NoMemory> for ParseError {
    ghost from_gives = { λ _ error. error ≡ SpecNoMemory };

    fn from(_error: NoMemory) -> ParseError {
        ParseError::NoMemory
    }
}
