ghost use Rattle.std.specs.Prelude.{◌≡◌};
ghost use Rattle.refutation_log.specs.LineParts.{refusal_of_line};

use super::refusal::LogRefusal;
use list_base::NoMemory;

/// Why a part of a line is not read.
#[derive(Clone, Copy, Debug, PartialEq, Eq)]
pub enum LineError {
    /// It has another form.
    Form,
    /// It has the form, and a number in it is out of range.
    Number,
    /// Memory ran out.
    NoMemory,
}

impl LineError {
    /// The refusal of the line of this number.
    pub fn at(self, line: u64) -> LogRefusal
        ensures { result ≡ refusal_of_line self line }
    {
        match self {
            LineError::Form => LogRefusal::Form { line },
            LineError::Number => LogRefusal::Number { line },
            LineError::NoMemory => LogRefusal::NoMemory,
        }
    }
}

impl From<NoMemory> for LineError {
    ghost use Rattle.refutation_log.specs.declared.line_error.LineError.TheVariants as errors;

    ghost from_gives = { λ _ error. error ≡ errors.NoMemory };

    fn from(_error: NoMemory) -> LineError {
        LineError::NoMemory
    }
}
