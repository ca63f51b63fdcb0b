ghost use Rattle.std.specs.Prelude.{◌≡◌, ◌==◌, ◌<◌, ◌≤◌, [], drop, length, IfSome, IfNone, OnOk};
ghost use Rattle.bspl_parser.specs.inner.ParseResult.{Returns, ReturnsRest, Takes};
ghost use Rattle.bspl_parser.specs.inner.Scan.{scan_from, with_token};
ghost use Rattle.bspl_parser.specs.inner.TokenParsers.{begins_with, begins_with_name, parse_word};
ghost use Rattle.bspl_parser.specs.inner.TokenParsers.{parse_symbol, parse_word_after};
ghost use Rattle.bspl_parser.specs.inner.TokenParsers.{parse_either, adorn_of, parse_adorn};
ghost use Rattle.bspl_parser.specs.inner.TokenParsers.{parse_key};
ghost use Rattle.bspl_parser.specs.inner.GrammarParsers.{has_more, parse_separator};

use super::document::Adorn;
use super::list_kind::ListKind;
use super::packed_token::unpack;
use super::parse_error::ErrorPosition;
use super::scanner::{Ahead, scan_token};
use super::symbol::Symbol;
use super::token::Token;
use super::word::Word;
use std::marker::Model;

/// The tokens of a text that are still to come, in order. The text is scanned one token ahead, and
/// no other token is kept.
#[derive(Drop)]
pub struct TokenStream<'t> {
    text: &'t [u8],
    ahead: Ahead,
}

impl<'t> Model for TokenStream<'t> {
    ghost use Rattle.bspl_parser.specs.inner.Scan.{Scan, rest_from, IsAhead};

    ghost Value = { Scan };

    ghost view = { λ s. rest_from s.text.now s.ahead };

    ghost invariant = { λ s. IsAhead s.text.now s.ahead };
}

impl<'t> TokenStream<'t> {
    /// The tokens of the text from the offset on.
    pub fn scan(text: &'t [u8], offset: usize) -> TokenStream<'t>
        requires short { length text.now ≤ 4294967295 }
        requires within { offset ≤ length text.now }
        ensures { result ≡ scan_from text.now offset }
    {
        let mut ahead = Ahead {
            token: None,
            offset,
        };
        scan_token(text, &mut ahead);
        TokenStream { text, ahead }
    }

    /// Takes the next token.
    pub fn next(&mut self) -> Option<Token<'t>>
        ensures some { IfSome result (λ token. self.old ≡ with_token token self.new) }
        ensures none { IfNone result (self.old.tokens ≡ []) }
        ensures kept { IfNone result (self.new ≡ self.old) }
    {
        let Some(packed) = self.ahead.token else {
            return None;
        };
        let token = unpack(self.text, packed);
        scan_token(self.text, &mut self.ahead);
        Some(token)
    }

    /// The offset of the first byte at which no token begins, after all tokens were taken.
    pub fn bad_byte(&mut self) -> Option<u64>
        ensures { result ≡ self.old.bad_byte }
    {
        'rest: while self.next().is_some() {}
        let offset = self.ahead.offset;
        (offset < self.text.len()).then_some(offset as u64)
    }

    /// Whether no token is left.
    fn is_empty(&self) -> bool
        ensures { result ≡ (length self.now.tokens == 0) }
    {
        self.ahead.token.is_none()
    }

    /// Whether the symbol comes next.
    pub fn begins_with(&self, symbol: Symbol) -> bool
        ensures { result ≡ begins_with symbol self.now.tokens }
    {
        match self.ahead.token {
            Some(packed) => packed.is_symbol(symbol),
            None => false,
        }
    }

    /// Whether a name comes next.
    fn begins_with_name(&self) -> bool
        ensures { result ≡ begins_with_name self.now.tokens }
    {
        match self.ahead.token {
            Some(packed) => packed.is_name(),
            None => false,
        }
    }

    /// Whether a name comes after the next token.
    fn has_name_second(&self) -> bool
        ensures { result ≡ begins_with_name (drop 1 self.now.tokens) }
    {
        TokenStream::scan(self.text, self.ahead.offset).begins_with_name()
    }

    /// Whether a further item of the list comes.
    pub fn has_more(&self, kind: ListKind) -> bool
        ensures { result ≡ has_more kind self.now.tokens }
    {
        match kind {
            ListKind::Comma => self.begins_with(Symbol::Comma),
            ListKind::CommaName => self.begins_with(Symbol::Comma) && self.has_name_second(),
            ListKind::Name => self.begins_with_name(),
            ListKind::Rest => !self.is_empty(),
        }
    }

    /// Takes what separates a further item from the one before.
    pub fn separator(&mut self, kind: ListKind) -> Result<(), ErrorPosition>
        ensures gives { ReturnsRest result self.new.tokens (parse_separator kind self.old.tokens) }
        ensures same { self.new.bad_byte ≡ self.old.bad_byte }
        ensures no_longer { OnOk result (length self.new.tokens ≤ length self.old.tokens) }
    {
        if kind.has_comma() {
            let _offset = self.symbol(Symbol::Comma)?;
        }
        Ok(())
    }

    /// Takes a name.
    #[tactic(auto, unfolding(crate::specs::inner::TokenParsers::parse_word))]
    pub fn word(&mut self) -> Result<Word<'t>, ErrorPosition>
        ensures { Takes result self.old self.new (parse_word self.old.tokens) }
    {
        match self.next() {
            None => Err(ErrorPosition::End),
            Some(Token::Name(word)) => Ok(word),
            Some(Token::Fixed { offset, .. }) => Err(ErrorPosition::At(offset)),
        }
    }

    /// Takes that symbol, and returns its offset.
    #[tactic(auto, unfolding(crate::specs::inner::TokenParsers::parse_symbol))]
    pub fn symbol(&mut self, wanted: Symbol) -> Result<u64, ErrorPosition>
        ensures { Takes result self.old self.new (parse_symbol wanted self.old.tokens) }
    {
        match self.next() {
            None => Err(ErrorPosition::End),
            Some(Token::Name(word)) => Err(ErrorPosition::At(word.offset)),
            Some(Token::Fixed { symbol, offset }) => {
                if symbol.is(wanted) {
                    Ok(offset)
                } else {
                    Err(ErrorPosition::At(offset))
                }
            }
        }
    }

    /// Takes that symbol, and a name after it.
    #[tactic(auto, unfolding(crate::specs::inner::TokenParsers::parse_word_after))]
    pub fn word_after(&mut self, wanted: Symbol) -> Result<Word<'t>, ErrorPosition>
        ensures { Takes result self.old self.new (parse_word_after wanted self.old.tokens) }
    {
        let _offset = self.symbol(wanted)?;
        self.word()
    }

    /// Takes one of two symbols, and returns its offset.
    pub fn either(&mut self, one: Symbol, other: Symbol) -> Result<u64, ErrorPosition>
        ensures { Takes result self.old self.new (parse_either one other self.old.tokens) }
    {
        if self.begins_with(one) {
            self.symbol(one)
        } else {
            self.symbol(other)
        }
    }

    /// Takes an adornment, and returns it with its offset.
    #[tactic(auto, unfolding(crate::specs::inner::TokenParsers::parse_adorn))]
    pub fn adornment(&mut self) -> Result<(Adorn, u64), ErrorPosition>
        ensures { Takes result self.old self.new (parse_adorn self.old.tokens) }
    {
        let (symbol, offset) = match self.next() {
            None => return Err(ErrorPosition::End),
            Some(Token::Name(word)) => return Err(ErrorPosition::At(word.offset)),
            Some(Token::Fixed { symbol, offset }) => (symbol, offset),
        };
        match adorn_of(symbol) {
            Some(adorn) => Ok((adorn, offset)),
            None => Err(ErrorPosition::At(offset)),
        }
    }

    /// Takes the word `key` if it comes, but not after a `nil` parameter, and returns its offset.
    #[tactic(auto, unfolding(crate::specs::inner::TokenParsers::parse_key))]
    pub fn key(&mut self, adorn: Adorn) -> Result<Option<u64>, ErrorPosition>
        ensures gives { Returns result self.new.tokens (parse_key adorn self.old.tokens) }
        ensures same { self.new.bad_byte ≡ self.old.bad_byte }
        ensures no_longer { OnOk result (length self.new.tokens ≤ length self.old.tokens) }
    {
        if adorn.takes_key() && self.begins_with(Symbol::Key) {
            let offset = self.symbol(Symbol::Key)?;
            return Ok(Some(offset));
        }
        Ok(None)
    }
}

/// The adornment that the symbol is.
fn adorn_of(symbol: Symbol) -> Option<Adorn>
    ensures { result ≡ adorn_of symbol }
{
    match symbol {
        Symbol::In => Some(Adorn::In),
        Symbol::Out => Some(Adorn::Out),
        Symbol::Nil => Some(Adorn::Nil),
        Symbol::Any => Some(Adorn::Any),
        Symbol::Opt => Some(Adorn::Opt),
        _ => None,
    }
}
