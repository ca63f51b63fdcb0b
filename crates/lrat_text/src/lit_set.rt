ghost use Rattle.std.specs.Prelude.{◌≡◌, ◌↔◌, [], ◌∷◌, ◌++◌, map, List, IsTrue, IfOk, OnOk};
ghost use Rattle.clause_core.specs.declared.literal.Lit.{Lit as SpecLit};
ghost use Rattle.clause_core.specs.Literal.{negated};
ghost use Rattle.lrat_text.specs.inner.LitSet.{HasLit, Holds};

use clause_core::Lit;
use list_base::NoMemory;
use std::alloc::Global;
use std::collections::BTreeSet;

/// A set of literals, which finds each by its rank, whichever they are.
#[derive(Drop)]
pub(crate) struct LitSet {
    ranks: BTreeSet<u64>,
}

impl LitSet {
    /// The negations of these literals.
    pub fn negating(alloc: Global, lits: &[Lit]) -> Result<LitSet, NoMemory>
        ensures { IfOk result (λ set. Holds set.ranks (map negated lits.now)) }
    {
        let mut set = LitSet {
            ranks: BTreeSet::new(alloc),
        };
        for lit in lits {
            set.insert(lit.negation())?;
        }
        Ok(set)
    }

    /// Whether the literal is in the set.
    pub fn has(&self, lit: Lit) -> bool
        ensures { IsTrue result ↔ HasLit self.now.ranks lit }
    {
        self.ranks.contains(&lit.rank())
    }

    /// Puts the literal into the set.
    pub fn insert(&mut self, lit: Lit) -> Result<(), NoMemory>
        ensures { (lits : List SpecLit) → Holds self.old.ranks lits →
            OnOk result (Holds self.new.ranks (lits ++ lit ∷ [])) }
    {
        self.ranks.insert(lit.rank())?;
        Ok(())
    }
}
