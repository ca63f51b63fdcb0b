/// How much was done until an answer. Each number stays at its greatest value once it is there.
/// The numbers are counted and not proved: no contract says how large they are.
#[derive(Clone, Copy, Debug, PartialEq, Eq)]
pub struct SearchStats {
    /// How many clauses were found false and led to a step of the log.
    pub conflicts: u32,
    /// How many literals were decided.
    pub decisions: u32,
    /// How many literals unit propagation set.
    pub propagations: u32,
}

impl SearchStats {
    ghost use Rattle.std.specs.Prelude.{◌≡◌};

    /// Nothing was done.
    pub fn none() -> SearchStats
        ensures conflicts { result.conflicts ≡ 0 }
        ensures decisions { result.decisions ≡ 0 }
        ensures propagations { result.propagations ≡ 0 }
    {
        SearchStats {
            conflicts: 0,
            decisions: 0,
            propagations: 0,
        }
    }
}
