ghost use Rattle.std.specs.Prelude.{◌≡◌};
ghost use Rattle.bspl_parser.specs.Token.{offset_of, token_text};

use super::symbol::Symbol;
use super::word::Word;

/// One token of a text.
#[derive(Drop)]
pub enum Token<'t> {
    /// A name.
    Name(Word<'t>),
    /// A reserved word or a mark, and the offset of its first byte.
    Fixed { symbol: Symbol, offset: u64 },
}

impl<'t> Token<'t> {
    /// The bytes of the name or of the symbol's spelling.
    pub fn text(&self) -> &[u8]
        ensures { result.now ≡ token_text self.now }
    {
        match self {
            Token::Name(word) => word.text.as_slice(),
            Token::Fixed { symbol, .. } => symbol.spelling(),
        }
    }

    /// The offset of its first byte.
    pub fn offset(&self) -> u64
        ensures { result ≡ offset_of self.now }
    {
        match self {
            Token::Name(word) => word.offset,
            Token::Fixed { offset, .. } => *offset,
        }
    }
}
