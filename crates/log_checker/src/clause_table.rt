ghost use Rattle.std.specs.Prelude.{◌≡◌, ◌-◌, ◌<◌, ◌↔◌, [], ◌∷◌, ◌++◌, length, Contains, Some, IsTrue, IfOk, IfSome, IfNone, OnOk};
ghost use Rattle.clause_core.specs.Numbering.{numbered, HasNumber, live};
ghost use Rattle.refutation_log.specs.Ledger.{all_live, without, IsLive};
ghost use Rattle.log_checker.specs.ChainFailure.{HasNoClause};

use super::lookup::{clause_of, has_empty};
use clause_core::{Clause, ClauseList};
use list_base::{NoMemory, Seq};
use order_axioms::{FormulaClauses, LentClause};
use std::alloc::Global;
use std::marker::Model;

/// The clauses of a formula and the derived ones, with a mark for each that is live.
#[derive(Drop)]
pub struct ClauseTable<'a> {
    formula: FormulaClauses<'a>,
    derived: ClauseList,
    live: Vec<bool>,
}

impl<'a> Model for ClauseTable<'a> {
    ghost use Rattle.std.specs.Prelude.{◌≡◌, ◌++◌, length};
    ghost use Rattle.log_checker.specs.inner.Table.{TableState, ledger_of};

    ghost Value = { TableState };

    ghost view = { λ a. record {
      formula = a.formula;
      derived = a.derived;
      ledger = ledger_of (a.formula ++ a.derived) a.live.items;
    } };

    ghost invariant = { λ a. length a.live.items ≡ length (a.formula ++ a.derived) };
}

impl<'a> ClauseTable<'a> {
    /// The clauses of the formula, all of them live.
    #[tactic(auto, using(crate::proofs::TableLemmas::ledger_first))]
    pub fn new(alloc: Global, formula: FormulaClauses<'a>) -> Result<ClauseTable<'a>, NoMemory>
        ensures formula { IfOk result (λ table. table.formula ≡ formula.entry) }
        ensures derived { IfOk result (λ table. table.derived ≡ []) }
        ensures ledger { IfOk result (λ table. table.ledger ≡ all_live formula.entry) }
    {
        let live = vec![in alloc; true; formula.len()]?;
        Ok(ClauseTable {
            formula,
            derived: Seq::new(alloc),
            live,
        })
    }

    /// How many clauses were derived.
    pub fn derived_count(&self) -> usize
        ensures { result ≡ length self.now.derived }
    {
        self.derived.len()
    }

    /// The derived clauses alone, live or not.
    pub fn into_derived(self) -> ClauseList
        ensures { result ≡ self.entry.derived }
    {
        self.derived
    }

    /// Whether a clause is empty, be it live or not.
    pub fn has_empty(&self) -> bool
        ensures { IsTrue result ↔ Contains (self.now.formula ++ self.now.derived) [] }
    {
        has_empty(&self.formula, self.derived.as_slice())
    }

    /// The live clause of the number.
    #[tactic(auto, using(crate::proofs::TableLemmas::live_numbered, crate::proofs::TableLemmas::none_numbered, crate::proofs::TableLemmas::none_live))]
    pub fn clause_of(&self, number: u32) -> Option<LentClause<'_>>
        ensures some { IfSome result (HasNumber (live self.now.ledger) number) }
        ensures among { IfSome result
            (HasNumber (numbered (self.now.formula ++ self.now.derived)) number) }
        ensures none { IfNone result (HasNoClause (live self.now.ledger) number) }
    {
        if !self.is_live(number) {
            return None;
        }
        clause_of(&self.formula, self.derived.as_slice(), number)
    }

    /// Adds a derived clause, which is live.
    #[tactic(auto, using(crate::proofs::TableLemmas::ledger_more))]
    pub fn push(&mut self, clause: Clause) -> Result<(), NoMemory>
        ensures formula { self.new.formula ≡ self.old.formula }
        ensures derived { OnOk result (self.new.derived ≡ self.old.derived ++ clause ∷ []) }
        ensures ledger { OnOk result (self.new.ledger ≡ self.old.ledger ++ Some clause ∷ []) }
    {
        self.live.push(true)?;
        let pushed = self.derived.push(clause);
        if pushed.is_err() {
            self.live.pop();
        }
        pushed
    }

    /// Ends the life of the number's clause, if it is live.
    #[tactic(auto, using(crate::proofs::TableLemmas::ledger_clear))]
    pub fn remove(&mut self, number: u32) -> bool
        ensures exact { IsTrue result ↔ IsLive self.old.ledger number }
        ensures ledger { IsTrue result → self.new.ledger ≡ without self.old.ledger number }
        ensures formula { self.new.formula ≡ self.old.formula }
        ensures derived { self.new.derived ≡ self.old.derived }
    {
        if !self.is_live(number) {
            return false;
        }
        self.live[number as usize - 1] = false;
        true
    }

    /// Whether the number is of a live clause.
    fn is_live(&self, number: u32) -> bool
        ensures exact { IsTrue result ↔ IsLive self.now.ledger number }
        ensures within { IsTrue result → (0 < number) ×
            (number - 1 < length (self.now.formula ++ self.now.derived)) }
    {
        if number == 0 {
            return false;
        }
        match self.live.get(number as usize - 1) {
            Some(mark) => *mark,
            None => false,
        }
    }
}
