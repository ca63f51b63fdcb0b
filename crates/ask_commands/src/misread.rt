ghost use Rattle.std.specs.Prelude.{◌≡◌, ◌≤◌, length, IfOk};
ghost use Rattle.ask_commands.specs.Misread.{IsReadAs, misread_rejection};

use list_base::NoMemory;
use question_text::{QuestionFault, Tree, read_question};
use std::alloc::Global;
use tool_input::{Code, Field, Rejection};

/// Why a text is no question: a number of the code Q, and the offset or the count beside it.
#[derive(Clone, Copy, Debug)]
pub struct Misread {
    pub code: u8,
    pub number: u64,
}

impl Misread {
    /// The rejection of the text.
    pub fn rejection(self) -> Rejection
        ensures { result ≡ misread_rejection self }
    {
        Rejection::with_one(Code::Q(self.code), Field::Number(self.number))
    }
}

/// The question that the text is, or why it is none.
pub fn question_or_misread(alloc: Global, text: &[u8]) -> Result<Result<Tree, Misread>, NoMemory>
    requires { length text.now ≤ 4294967295 }
    ensures { IfOk result (IsReadAs text.now) }
{
    let (code, number) = match read_question(alloc, text) {
        Ok(question) => return Ok(Ok(question)),
        Err(QuestionFault::Byte(offset)) => (1, offset),
        Err(QuestionFault::TooLong(count)) => (2, count),
        Err(QuestionFault::Syntax(offset)) => (3, offset),
        Err(QuestionFault::NoMemory) => return Err(NoMemory),
    };
    Ok(Err(Misread { code, number }))
}
