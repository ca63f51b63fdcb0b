ghost use Rattle.std.specs.Prelude.{◌≡◌, List, ℕ};
ghost use Rattle.program_frame.specs.Laws.{HalvesAreCalls, HalvesAreCounted};

use super::program::Program;

/// A law: what was prepared for some arguments and then went on is a call of the program.
pub fn halves_are_calls<'a, P: Program<'a>>()
    ensures call { (args : List (List ℕ)) →
        HalvesAreCalls (P.asks args) P.limit (P.requests args) (P.answers args) }
    ensures faults { (args : List (List ℕ)) →
        HalvesAreCounted (P.asks args) P.limit (P.requests args) (P.answers args) }
{}
