use super::due::due;
use super::refutation::{Chain, Log, Removal};
use std::marker::Model;

/// An entry of a log, which is lent.
#[derive(Clone, Copy)]
pub enum EntryRef<'a> {
    /// A step.
    Step(&'a Chain),
    /// The numbers of the clauses that a removal names, in order.
    Drop(&'a [u32]),
}

/// The entries of a log that are left, in the order of its text.
#[derive(Drop)]
pub struct Entries<'a> {
    done: usize,
    steps: &'a [Chain],
    removals: &'a [Removal],
}

impl<'a> Model for Entries<'a> {
    ghost use Rattle.std.specs.Prelude.{List};
    ghost use Rattle.refutation_log.specs.declared.refutation.Entry.{Entry};
    ghost use Rattle.refutation_log.specs.Entries.{entries_after};
    ghost use Rattle.refutation_log.specs.RemovalOrder.{IsLeft};

    ghost Value = { List Entry };

    ghost view = { λ a. entries_after a.done a.steps.now a.removals.now };

    ghost invariant = { λ a. IsLeft a.done a.steps.now a.removals.now };
}

impl<'a> Entries<'a> {
    ghost use Rattle.std.specs.Prelude.{◌≡◌, [], ◌∷◌, MatchOption};
    ghost use Rattle.refutation_log.specs.Cursor.{lent_entry};

    /// Lends the next entry.
    pub fn next(&mut self) -> Option<EntryRef<'a>>
        ensures { MatchOption result
            ((self.old ≡ []) × (self.new ≡ []))
            (λ entry. self.old ≡ lent_entry entry ∷ self.new) }
    {
        if let Some((removal, others)) = due(self.removals, self.done) {
            self.removals = others;
            return Some(EntryRef::Drop(removal.clauses.as_slice()));
        }
        let Some(step) = self.steps.get(self.done) else {
            return None;
        };
        self.done += 1;
        Some(EntryRef::Step(step))
    }
}

impl Log {
    ghost use Rattle.std.specs.Prelude.{◌≡◌};
    ghost use Rattle.refutation_log.specs.Entries.{entries, steps_of};

    /// The entries of the log.
    pub fn entries(&self) -> Entries<'_>
        ensures same { result ≡ entries self.now }
        ensures steps { steps_of result ≡ self.now.steps }
    {
        Entries {
            done: 0,
            steps: self.steps.as_slice(),
            removals: self.removals.as_slice(),
        }
    }
}
