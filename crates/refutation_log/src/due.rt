ghost use Rattle.std.specs.Prelude.{◌≡◌, ◌≢◌, ◌∷◌, List, MatchOption};
ghost use Rattle.refutation_log.specs.declared.refutation.Removal.{Removal};

use super::refutation::Removal;

/// The first of the removals and the others, if it stands after `done` steps.
pub fn due(removals: &[Removal], done: usize) -> Option<(&Removal, &[Removal])>
    ensures { MatchOption result
        ((removal : Removal) (others : List Removal) →
        removals.now ≡ removal ∷ others → removal.after ≢ done)
        (λ due. (removals.now ≡ due.0.now ∷ due.1.now) × (due.0.now.after ≡ done)) }
{
    match removals.split_first() {
        Some((removal, others)) if removal.after as usize == done => Some((removal, others)),
        _ => None,
    }
}
