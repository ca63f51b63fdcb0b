ghost use Rattle.std.specs.Prelude.{◌≡◌};
ghost use Rattle.bspl_parser.specs.Symbol.{spelling};
ghost use Rattle.bspl_parser.specs.inner.SymbolTable.{same_symbol};

/// A reserved word or a mark.
#[derive(Clone, Copy, PartialEq, Eq)]
pub enum Symbol {
    Roles,
    Role,
    Parameters,
    Parameter,
    Private,
    In,
    Out,
    Nil,
    Any,
    Opt,
    Key,
    Arrow,
    OpenBrace,
    CloseBrace,
    OpenBracket,
    CloseBracket,
    OpenParen,
    CloseParen,
    Comma,
    Colon,
}

impl Symbol {
    /// The bytes that spell the symbol.
    pub fn spelling(self) -> &'static [u8]
        ensures { result.now ≡ spelling self }
    {
        match self {
            Symbol::Roles => b"roles",
            Symbol::Role => b"role",
            Symbol::Parameters => b"parameters",
            Symbol::Parameter => b"parameter",
            Symbol::Private => b"private",
            Symbol::In => b"in",
            Symbol::Out => b"out",
            Symbol::Nil => b"nil",
            Symbol::Any => b"any",
            Symbol::Opt => b"opt",
            Symbol::Key => b"key",
            Symbol::Arrow => b"->",
            Symbol::OpenBrace => b"{",
            Symbol::CloseBrace => b"}",
            Symbol::OpenBracket => b"[",
            Symbol::CloseBracket => b"]",
            Symbol::OpenParen => b"(",
            Symbol::CloseParen => b")",
            Symbol::Comma => b",",
            Symbol::Colon => b":",
        }
    }

    /// Whether it is the other symbol.
    pub fn is(self, other: Symbol) -> bool
        ensures { result ≡ same_symbol self other }
    {
        self == other
    }
}
