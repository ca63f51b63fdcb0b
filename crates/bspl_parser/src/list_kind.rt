ghost use Rattle.std.specs.Prelude.{◌≡◌};
ghost use Rattle.bspl_parser.specs.inner.GrammarParsers.{has_comma};

/// How a list goes on: what has to come next for a further item to be read.
#[derive(Clone, Copy)]
pub enum ListKind {
    /// A comma, which is taken first.
    Comma,
    /// A comma and a name; the comma is taken first.
    CommaName,
    /// A name.
    Name,
    /// Any token.
    Rest,
}

impl ListKind {
    /// Whether a comma separates the items.
    pub fn has_comma(self) -> bool
        ensures { result ≡ has_comma self }
    {
        matches!(self, ListKind::Comma | ListKind::CommaName)
    }
}
