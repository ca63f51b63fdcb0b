ghost use Rattle.std.specs.Prelude.{◌≡◌, IfOk};
ghost use Rattle.protocol_rules.specs.Braces.{braces_from, braces_of, close_brace, first_braces};
ghost use Rattle.protocol_rules.specs.Braces.{first_close, is_in_braces, is_word_token, open_brace};

use bspl_parser::{Symbol, Token};
use list_base::{NoMemory, Seq};
use std::alloc::Global;

/// The offsets of the braces of a protocol.
#[derive(Clone, Copy, Debug)]
pub(crate) struct Braces {
    pub opened: u64,
    pub closed: u64,
}

/// The braces of each protocol of the name.
pub(crate) fn braces_of(
    alloc: Global,
    tokens: &[Token<'_>],
    name: &[u8],
) -> Result<Seq<Braces>, NoMemory>
    ensures { IfOk result (λ all. all ≡ braces_of name.now tokens.now) }
{
    let mut all = Seq::new(alloc);
    for index in 0..tokens.len() {
        if let Some(braces) = first_braces(&tokens[index..], name) {
            all.push(braces)?;
        }
    }
    Ok(all)
}

/// Whether the offset lies between two of the braces.
pub(crate) fn is_in_braces(braces: &[Braces], offset: u64) -> bool
    ensures { result ≡ is_in_braces braces.now offset }
{
    braces
        .iter()
        .any(|b| b.opened < offset && offset < b.closed)
}

/// The braces of a protocol of the name, if the tokens begin with it.
fn first_braces(tokens: &[Token<'_>], name: &[u8]) -> Option<Braces>
    ensures { result ≡ first_braces name.now tokens.now }
{
    match tokens {
        [word, brace, rest @ ..] => {
            if !is_word_token(word, name) {
                return None;
            }
            braces_from(open_brace(brace), first_close(rest))
        }
        _ => None,
    }
}

/// The braces at these offsets, if both are there.
fn braces_from(opened: Option<u64>, closed: Option<u64>) -> Option<Braces>
    ensures { result ≡ braces_from opened closed }
{
    match (opened, closed) {
        (Some(opened), Some(closed)) => Some(Braces { opened, closed }),
        _ => None,
    }
}

/// The offset of the first closing brace.
fn first_close(tokens: &[Token<'_>]) -> Option<u64>
    ensures { result ≡ first_close tokens.now }
{
    for token in tokens {
        if let Some(offset) = close_brace(token) {
            return Some(offset);
        }
    }
    None
}

/// Whether the token is the name.
fn is_word_token(token: &Token<'_>, name: &[u8]) -> bool
    ensures { result ≡ is_word_token name.now token.now }
{
    match token {
        Token::Name(word) => word.text.as_slice() == name,
        Token::Fixed { .. } => false,
    }
}

/// The offset of an opening brace.
fn open_brace(token: &Token<'_>) -> Option<u64>
    ensures { result ≡ open_brace token.now }
{
    match token {
        Token::Fixed {
            symbol: Symbol::OpenBrace,
            offset,
        } => Some(*offset),
        _ => None,
    }
}

/// The offset of a closing brace.
fn close_brace(token: &Token<'_>) -> Option<u64>
    ensures { result ≡ close_brace token.now }
{
    match token {
        Token::Fixed {
            symbol: Symbol::CloseBrace,
            offset,
        } => Some(*offset),
        _ => None,
    }
}
