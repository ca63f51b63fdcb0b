ghost use Rattle.std.specs.Prelude.{◌≡◌};
ghost use Rattle.tool_input.specs.Error.{error_for};

use super::refusal::InputRefusal;
use super::rejection::{Rejection, input_rejection, text_rejection};
use bspl_types::{NoMemory, Refusal};

/// Why there is no answer.
#[derive(Drop)]
pub enum AnswerError {
    /// The arguments or the input are refused.
    Rejected(Rejection),
    /// Memory ran out.
    NoMemory,
}

/// The error for a rejection. Without one memory ran out.
pub fn error_for(rejection: Option<Rejection>) -> AnswerError
    ensures { result ≡ error_for rejection }
{
    match rejection {
        Some(rejection) => AnswerError::Rejected(rejection),
        None => AnswerError::NoMemory,
    }
}

impl From<NoMemory> for AnswerError {
    ghost use Rattle.std.specs.Prelude.{◌≡◌};
    ghost use Rattle.tool_input.specs.declared.answer_error.AnswerError.TheVariants.{NoMemory};

    ghost from_gives = { λ _ error. error ≡ NoMemory };

    fn from(_error: NoMemory) -> AnswerError {
        AnswerError::NoMemory
    }
}

impl From<InputRefusal> for AnswerError {
    ghost use Rattle.std.specs.Prelude.{◌≡◌};
    ghost use Rattle.tool_input.specs.Rejection.{input_rejection};
    ghost use Rattle.tool_input.specs.declared.answer_error.AnswerError.TheVariants.{Rejected};

    ghost from_gives = { λ refusal error. error ≡ Rejected (input_rejection refusal) };

    fn from(refusal: InputRefusal) -> AnswerError {
        AnswerError::Rejected(input_rejection(refusal))
    }
}

impl From<Refusal> for AnswerError {
    ghost use Rattle.std.specs.Prelude.{◌≡◌};
    ghost use Rattle.tool_input.specs.Rejection.{text_rejection};
    ghost use Rattle.tool_input.specs.Error.{error_for};

    ghost from_gives = { λ refusal error. error ≡ error_for (text_rejection refusal) };

    fn from(refusal: Refusal) -> AnswerError {
        error_for(text_rejection(refusal))
    }
}
