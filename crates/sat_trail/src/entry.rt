ghost use Rattle.std.specs.Prelude.{◌≡◌};
ghost use Rattle.sat_trail.specs.Entry.{decided};

use clause_core::Lit;

/// A set literal, its level, and the number of the clause that forced it.
#[derive(Clone, Copy, Debug)]
pub struct Entry {
    /// The literal that is true.
    pub lit: Lit,
    /// The level at which it was set.
    pub level: u32,
    /// The number of the clause that forced it; none for a decision.
    pub reason: Option<u32>,
}

impl Entry {
    /// The entry of a decision at the level.
    pub fn decision(lit: Lit, level: u32) -> Entry
        ensures { result ≡ decided lit level }
    {
        Entry {
            lit,
            level,
            reason: None,
        }
    }
}
