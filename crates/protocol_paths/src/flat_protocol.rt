use bspl_parser::{FormalList, Schema, Word, WordList};
use bspl_types::Seq;

/// Messages in reading order.
pub type SchemaList<'t> = Seq<Schema<'t>>;

/// A protocol of messages alone: it refers to no other.
#[derive(Drop)]
pub struct FlatProtocol<'t> {
    /// Its name.
    pub name: Word<'t>,
    /// Its roles.
    pub roles: WordList<'t>,
    /// Its public parameters.
    pub public: FormalList<'t>,
    /// Its private parameters.
    pub private: WordList<'t>,
    /// Its messages.
    pub messages: SchemaList<'t>,
}
