ghost use Rattle.std.specs.Prelude.{◌≡◌, ◌≤◌, length, IfOk, IfErr};
ghost use Rattle.question_text.specs.declared.reader.TokenFault.TheVariants as token_fault;
ghost use Rattle.question_text.specs.inner.Fault.{IsTokenFault};
ghost use Rattle.question_text.specs.QuestionText.{IsMisread, IsQuestionText, SpellsQuestion};
ghost use Rattle.question_text.specs.Tree.{phrase_of};

use super::fault::QuestionFault;
use super::reading::{Misstep, Reading};
use super::step::step;
use super::tree::Tree;
use bspl_parser::{Token, tokens_of};
use list_base::NoMemory;
use std::alloc::Global;

/// The most tokens that a question has.
const TOKEN_LIMIT: usize = 256;

/// Why tokens are no question.
#[derive(Clone, Copy)]
enum TokenFault {
    /// No question has the token at this offset.
    At(u64),
    /// More has to come.
    End,
    /// Memory ran out.
    NoMemory,
}

impl From<NoMemory> for TokenFault {
    ghost from_gives = { λ _ fault. fault ≡ token_fault.NoMemory };

    fn from(_error: NoMemory) -> TokenFault {
        TokenFault::NoMemory
    }
}

/// The question that the text spells. Otherwise the first of these faults: the first byte at which
/// no token begins; too many tokens; the first token that no question has there, or the end.
pub fn read_question(alloc: Global, text: &[u8]) -> Result<Tree, QuestionFault>
    requires { length text.now ≤ 4294967295 }
    ensures ok { IfOk result (IsQuestionText text.now) }
    ensures refused { IfErr result (IsMisread text.now) }
{
    let tokens = tokens_of(alloc, text)?;
    if tokens.len() > TOKEN_LIMIT {
        return Err(QuestionFault::TooLong(tokens.len() as u64));
    }
    match read_tokens(alloc, tokens.as_slice()) {
        Ok(tree) => Ok(tree),
        Err(TokenFault::At(offset)) => Err(QuestionFault::Syntax(offset)),
        Err(TokenFault::End) => Err(QuestionFault::Syntax(text.len() as u64)),
        Err(TokenFault::NoMemory) => Err(QuestionFault::NoMemory),
    }
}

/// The question that the tokens are.
fn read_tokens(alloc: Global, tokens: &[Token<'_>]) -> Result<Tree, TokenFault>
    ensures ok { IfOk result (λ t. SpellsQuestion tokens.now (phrase_of t)) }
    ensures refused { IfErr result (IsTokenFault tokens.now) }
{
    let mut reading = Reading::start();
    for token in tokens {
        reading = match step(alloc, reading, token.text()) {
            Ok(next) => next,
            Err(Misstep::Misplaced) => return Err(TokenFault::At(token.offset())),
            Err(Misstep::NoMemory) => return Err(TokenFault::NoMemory),
        };
    }
    match reading.whole(alloc)? {
        Some(question) => Ok(question),
        None => Err(TokenFault::End),
    }
}
