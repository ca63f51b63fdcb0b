ghost use Rattle.std.specs.Prelude.{IsTrue};
ghost use Rattle.bspl_types.specs.Name.{is_name};

use super::text::Text;
use bspl_types::Seq;

/// A name, and the offset of its first byte in the text.
#[derive(Drop)]
pub struct Word<'t> {
    /// The name's bytes.
    pub text: Text<'t>,
    /// The offset of the first of them.
    pub offset: u64,
    pub ghost named: { IsTrue (is_name text) },
}

/// Names in reading order.
pub type WordList<'t> = Seq<Word<'t>>;
