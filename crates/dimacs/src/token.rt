ghost use Rattle.std.specs.Prelude.{◌≡◌, ◌≢◌, ◌≤◌, IfOk, IfErr};
ghost use Rattle.dimacs.specs.Dimacs.{variable_limit};
ghost use Rattle.dimacs.specs.RefusedLine.{IsClauseWord};
ghost use Rattle.dimacs.specs.inner.Reading.{TokenExists, token_word};

use clause_core::Lit;
use refutation_log::{LineError, pivot_of};

/// A word after the header.
#[derive(Clone, Copy, Debug, PartialEq, Eq)]
pub enum Token {
    Literal(Lit),
    /// A clause ends.
    End,
}

/// The token of a word, unless it is none or has a variable past `vars`.
pub fn token_of(word: &[u8], vars: u32) -> Result<Token, LineError>
    requires { vars ≤ variable_limit }
    ensures ok { IfOk result (λ token. (token_word token ≡ word.now) × TokenExists vars token) }
    ensures err { IfErr result (λ error. error ≢ LineError.NoMemory →
        ¬ IsClauseWord vars word.now) }
{
    if word == b"0".as_slice() {
        return Ok(Token::End);
    }
    let lit = pivot_of(word)?;
    if lit.var <= vars {
        Ok(Token::Literal(lit))
    } else {
        Err(LineError::Number)
    }
}
