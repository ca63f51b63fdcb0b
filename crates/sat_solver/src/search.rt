use super::choice::choose;
use super::completion::completed;
use super::given_formula::GivenFormula;
use super::learner::Learner;
use super::search_stats::SearchStats;
use clause_core::Assignment;
use list_base::NoMemory;
use std::alloc::Global;

/// Where a search stops.
#[derive(Drop)]
pub enum SearchResult {
    /// The clause of the number is false.
    Falsified(u32),
    /// The assignment satisfies the formula.
    Completed(Assignment),
    /// All variables are set.
    Finished,
}

impl<'f> Learner<'f> {
    ghost use Rattle.std.specs.Prelude.{◌≡◌, IfOk, OnOk};
    ghost use Rattle.sat_solver.specs.inner.Search.{IsSearchResult, KeepsClauses};

    /// Decides and propagates until a clause is false or all variables are set. When the rule first
    /// proposes nothing, what is set is completed to a model, if one is seen. That this is a good
    /// moment is the rule's advice, and no proof rests on it.
    pub fn search(
        &mut self,
        alloc: Global,
        f: &GivenFormula,
        stats: &mut SearchStats,
    ) -> Result<SearchResult, NoMemory>
        ensures keeps { OnOk result (KeepsClauses self.old.trail self.new.trail) }
        ensures found { IfOk result (IsSearchResult f.now self.new.trail) }
        ensures steps { self.new.steps ≡ self.old.steps }
    {
        // law: what every trail keeps
        self.trail.is_trail();
        self.rule.begin(&self.trail);
        let mut lowest = 0;
        let mut completes = true;
        'deciding: loop {
            let before = self.trail.len();
            let found = self.trail.propagate()?;
            let propagated = self.trail.len().saturating_sub(before);
            stats.propagations = stats.propagations.saturating_add(propagated);
            if let Some(number) = found {
                return Ok(SearchResult::Falsified(number));
            }
            let proposed = self.rule.propose(&self.trail);
            if completes && proposed.is_none() {
                completes = false;
                if let Some(assignment) = completed(alloc, f, &self.trail)? {
                    return Ok(SearchResult::Completed(assignment));
                }
            }
            let Some(lit) = choose(&self.trail, proposed, &mut lowest) else {
                return Ok(SearchResult::Finished);
            };
            self.trail.decide(lit);
            stats.decisions = stats.decisions.saturating_add(1);
        }
    }
}
