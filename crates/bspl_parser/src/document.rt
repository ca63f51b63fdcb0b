ghost use Rattle.std.specs.Prelude.{◌≡◌};
ghost use Rattle.bspl_parser.specs.inner.TokenParsers.{takes_key};

use super::word::{Word, WordList};
use bspl_types::Seq;

/// How a parameter is adorned in a text.
#[derive(Clone, Copy, Debug, PartialEq, Eq)]
pub enum Adorn {
    /// The word `in`.
    In,
    /// The word `out`.
    Out,
    /// The word `nil`.
    Nil,
    /// The word `any`.
    Any,
    /// The word `opt`.
    Opt,
}

impl Adorn {
    /// Whether the word `key` may follow the parameter.
    pub(crate) fn takes_key(self) -> bool
        ensures { result ≡ takes_key self }
    {
        !matches!(self, Adorn::Nil)
    }
}

/// An adorned parameter.
#[derive(Drop)]
pub struct Formal<'t> {
    /// Its adornment.
    pub adorn: Adorn,
    /// The offset of the adornment.
    pub offset: u64,
    /// Its name.
    pub name: Word<'t>,
    /// The offset of the word `key`, if it is there.
    pub key: Option<u64>,
}

/// Adorned parameters in reading order.
pub type FormalList<'t> = Seq<Formal<'t>>;

/// A message: from whom, to whom, its name and its parameters.
#[derive(Drop)]
pub struct Schema<'t> {
    /// The role that sends it.
    pub sender: Word<'t>,
    /// The role that receives it.
    pub receiver: Word<'t>,
    /// Its name.
    pub name: Word<'t>,
    /// Its parameters, at least one.
    pub params: FormalList<'t>,
}

/// A use of another protocol, with the roles and parameters that it is given.
#[derive(Drop)]
pub struct Reference<'t> {
    /// The protocol's name.
    pub protocol: Word<'t>,
    /// The roles given, at least one.
    pub roles: WordList<'t>,
    /// The parameters given.
    pub params: FormalList<'t>,
}

/// One item of a protocol's body.
#[derive(Drop)]
pub enum Item<'t> {
    /// A message.
    Message(Schema<'t>),
    /// A use of another protocol.
    Reference(Reference<'t>),
}

/// A body in reading order.
pub type ItemList<'t> = Seq<Item<'t>>;

/// One protocol.
#[derive(Drop)]
pub struct Declaration<'t> {
    /// Its name.
    pub name: Word<'t>,
    /// Its roles, at least one.
    pub roles: WordList<'t>,
    /// Its public parameters, at least one.
    pub public: FormalList<'t>,
    /// Its private parameters.
    pub private: WordList<'t>,
    /// Its items.
    pub body: ItemList<'t>,
}

/// Protocols in reading order.
pub type DeclarationList<'t> = Seq<Declaration<'t>>;

/// What a text spells.
#[derive(Drop)]
pub struct Document<'t> {
    /// Its protocols, at least one.
    pub protocols: DeclarationList<'t>,
}
