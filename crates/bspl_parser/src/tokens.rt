ghost use Rattle.std.specs.Prelude.{◌≡◌, ◌≤◌, length, IfOk, IfErr};
ghost use Rattle.bspl_parser.specs.declared.tokens.TokensError.TheVariants as tokens_error;
ghost use Rattle.bspl_parser.specs.Tokens.{Tokens};
ghost use Rattle.bspl_parser.specs.Refused.{HasNoTokens};

use super::token::Token;
use super::token_stream::TokenStream;
use bspl_types::{NoMemory, Seq};
use std::alloc::Global;

/// Why a text has no tokens.
#[derive(Clone, Copy, Debug, PartialEq, Eq)]
pub enum TokensError {
    /// No token begins at this byte: its offset.
    Byte(u64),
    /// Memory ran out.
    NoMemory,
}

impl From<NoMemory> for TokensError {
    ghost from_gives = { λ _ error. error ≡ tokens_error.NoMemory };

    fn from(_error: NoMemory) -> TokensError {
        TokensError::NoMemory
    }
}

/// The tokens of the text, in order, or the first byte at which none begins.
pub fn tokens_of<'t>(alloc: Global, text: &'t [u8]) -> Result<Seq<Token<'t>>, TokensError>
    requires { length text.now ≤ 4294967295 }
    ensures ok { IfOk result (λ tokens. Tokens text.now tokens) }
    ensures refused { IfErr result (HasNoTokens text.now) }
{
    let mut stream = TokenStream::scan(text, 0);
    let mut tokens = Seq::new(alloc);
    'tokens: while let Some(token) = stream.next() {
        tokens.push(token)?;
    }
    match stream.bad_byte() {
        Some(offset) => Err(TokensError::Byte(offset)),
        None => Ok(tokens),
    }
}
