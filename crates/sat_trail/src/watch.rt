ghost use Rattle.std.specs.Prelude.{◌≡◌, ◌↔◌, IsTrue};

use super::packed_lit::PackedLit;

/// A watched literal of a clause, and the number of the next clause that watches it, or 0.
#[derive(Clone, Copy, Debug)]
pub struct Watch {
    pub lit: PackedLit,
    pub link: u32,
}

impl Watch {
    /// Whether the literal is the watched one.
    pub fn is_of(&self, lit: PackedLit) -> bool
        ensures { IsTrue result ↔ (self.now.lit ≡ lit) }
    {
        self.lit.is(lit)
    }
}

/// Both watches of a clause, in 16 bytes. What a walk along one of them wants of the other lies
/// beside it.
#[derive(Clone, Copy, Debug)]
pub struct Cell {
    pub one: Watch,
    pub other: Watch,
}
