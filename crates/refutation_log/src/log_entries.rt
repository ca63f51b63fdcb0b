ghost use Rattle.std.specs.Prelude.{◌≡◌, ◌≢◌, [], ◌∷◌, ◌++◌, length, OnOk, OnErr};
ghost use Rattle.refutation_log.specs.declared.refutation.Entry.TheVariants as entry;
ghost use Rattle.refutation_log.specs.Entries.{entries, NamesClause};
ghost use Rattle.refutation_log.specs.LogText.{least_version};

use super::refutation::{Chain, ChainList, Entry, Log, Removal, Version};
use list_base::{NoMemory, NumberList, Seq};
use std::alloc::Global;

impl Log {
    /// The log of these steps that removes nothing. It takes no memory.
    pub fn plain(alloc: Global, steps: ChainList) -> Log
        ensures steps { result.steps ≡ steps }
        ensures removals { result.removals ≡ [] }
    {
        Log {
            steps,
            removals: Seq::new(alloc),
        }
    }

    /// Makes a step after all the entries so far. An error drops the step.
    pub fn push(&mut self, step: Chain) -> Result<(), NoMemory>
        ensures steps { OnOk result (self.new.steps ≡ self.old.steps ++ step ∷ []) }
        ensures removals { self.new.removals ≡ self.old.removals }
        ensures entries { OnOk result
            (entries self.new ≡ entries self.old ++ entry.Step step ∷ []) }
        ensures err { OnErr result (self.new ≡ self.old) }
    {
        self.steps.push(step)
    }

    /// Removes the clauses of these numbers after all the entries so far. An error drops the
    /// numbers; it comes too if there are 4,294,967,296 steps or more.
    pub fn remove(&mut self, clauses: NumberList) -> Result<(), NoMemory>
        requires named { clauses ≢ [] }
        ensures steps { self.new.steps ≡ self.old.steps }
        ensures removals { OnOk result (self.new.removals ≡ self.old.removals ++
            record { after = length self.old.steps; clauses = clauses } ∷ []) }
        ensures entries { OnOk result
            (entries self.new ≡ entries self.old ++ entry.Drop clauses ∷ []) }
        ensures err { OnErr result (self.new ≡ self.old) }
    {
        let Ok(after) = u32::try_from(self.steps.len()) else {
            return Err(NoMemory);
        };
        self.removals.push(Removal { after, clauses })
    }

    /// Appends the entry. An error drops it.
    pub fn push_entry(&mut self, entry: Entry) -> Result<(), NoMemory>
        requires { NamesClause entry }
        ensures entries { OnOk result (entries self.new ≡ entries self.old ++ entry ∷ []) }
        ensures err { OnErr result (self.new ≡ self.old) }
    {
        match entry {
            Entry::Step(step) => self.push(step),
            Entry::Drop(clauses) => self.remove(clauses),
        }
    }

    /// The version of the text that is written of the log.
    pub fn version(&self) -> Version
        ensures { result ≡ least_version self.now.removals }
    {
        if self.removals.is_empty() {
            Version::One
        } else {
            Version::Two
        }
    }
}
