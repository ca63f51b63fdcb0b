ghost use Rattle.std.specs.Prelude.{◌≡◌};
ghost use Rattle.bspl_parser.specs.inner.PackedToken.{is_symbol, is_name_kind, IsPacked, unpacked};

use super::symbol::Symbol;
use super::text::Text;
use super::token::Token;
use super::word::Word;

/// What a token is, but for its text and its offset.
#[derive(Clone, Copy)]
pub enum Kind {
    /// A name.
    Name,
    /// A reserved word or a mark.
    Fixed(Symbol),
}

/// A token in twelve bytes: what it is, and where it lies in the text.
#[derive(Clone, Copy)]
pub struct PackedToken {
    /// The offset of its first byte.
    pub start: u32,
    /// How many bytes it has.
    pub len: u32,
    /// What it is.
    pub kind: Kind,
}

impl PackedToken {
    /// Whether it is that symbol.
    pub fn is_symbol(self, symbol: Symbol) -> bool
        ensures { result ≡ is_symbol symbol self.kind }
    {
        match self.kind {
            Kind::Name => false,
            Kind::Fixed(other) => other.is(symbol),
        }
    }

    /// Whether it is a name.
    pub fn is_name(self) -> bool
        ensures { result ≡ is_name_kind self.kind }
    {
        matches!(self.kind, Kind::Name)
    }
}

/// The token, with its bytes lent from the text.
pub fn unpack(text: &[u8], packed: PackedToken) -> Token<'_>
    requires { IsPacked text.now packed }
    ensures { result ≡ unpacked text.now packed }
{
    let start = packed.start as usize;
    let offset = packed.start as u64;
    match packed.kind {
        Kind::Name => {
            let end = start + packed.len as usize;
            let text = Text::lent(&text[start..end]);
            Token::Name(Word { text, offset })
        }
        Kind::Fixed(symbol) => Token::Fixed { symbol, offset },
    }
}
