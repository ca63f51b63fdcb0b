ghost use Rattle.std.specs.Prelude.{◌≡◌};
ghost use Rattle.question_text.specs.declared.fault.QuestionFault.TheVariants as question_fault;
ghost use Rattle.question_text.specs.inner.Fault.{fault_of};

use bspl_parser::TokensError;
use list_base::NoMemory;

/// Why a text is no question.
#[derive(Clone, Copy, Debug, PartialEq, Eq)]
pub enum QuestionFault {
    /// No token begins at this byte: its offset.
    Byte(u64),
    /// It has more than 256 tokens: their number.
    TooLong(u64),
    /// No question has this token here: its offset; or the text ends too early: its length.
    Syntax(u64),
    /// Memory ran out.
    NoMemory,
}

impl From<NoMemory> for QuestionFault {
    ghost from_gives = { λ _ fault. fault ≡ question_fault.NoMemory };

    fn from(_error: NoMemory) -> QuestionFault {
        QuestionFault::NoMemory
    }
}

impl From<TokensError> for QuestionFault {
    ghost from_gives = { λ error fault. fault ≡ fault_of error };

    fn from(error: TokensError) -> QuestionFault {
        match error {
            TokensError::Byte(offset) => QuestionFault::Byte(offset),
            TokensError::NoMemory => QuestionFault::NoMemory,
        }
    }
}
