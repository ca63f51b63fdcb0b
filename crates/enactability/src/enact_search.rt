ghost use Rattle.std.specs.Prelude.{◌<◌, ◌≤◌, length, IfOk};
ghost use Rattle.clause_core.specs.Assignment.{valuation};
ghost use Rattle.clause_core.specs.Clause.{SatisfiesAll};
ghost use Rattle.clause_encoding.specs.Families.{shared_clauses};
ghost use Rattle.clause_encoding.specs.Formula.{safety_variables};
ghost use Rattle.clause_encoding.specs.Variables.{variable_count};
ghost use Rattle.enactment_model.specs.Legal.{IsLegalRun};
ghost use Rattle.witness_replay.specs.Witness.{IsRunOfAssignment};
ghost use Rattle.enactability.specs.Answer.{HasEnactLogInRange, IsRightEnact};

use super::cut::{cut_of, known_cut};
use super::formula::{shared_formula, with_sent};
use super::laws::{cut_enacts, enact_clauses_are_few, no_model_is_dead};
use super::outcome::Enact;
use bspl_types::{Admitted, Run};
use clause_core::Assignment;
use clause_encoding::{
    clauses_are_as_many, safety_variables, variables_are_small, written_is_satisfied,
};
use list_base::{NoMemory, Seq};
use order_axioms::OrderedFormula;
use sat_solver::Outcome;
use std::alloc::Global;
use std::marker::Model;
use verdict::{numbers_in_range, search_model};
use witness_replay::order_run;

/// Searches of one protocol, which make the clauses that all messages share once, and look first
/// among the runs that they found. Contracts see the protocol.
#[derive(Drop)]
pub struct EnactSearch<'a> {
    protocol: &'a Admitted,
    shared: OrderedFormula,
    runs: Seq<Run>,
}

impl<'a> Model for EnactSearch<'a> {
    ghost use Rattle.bspl_types.specs.declared.expanded.Expanded.{Expanded as SpecExpanded};
    ghost use Rattle.order_axioms.specs.Formula.{whole};
    ghost use Rattle.enactability.specs.inner.Search.{IsSearch};

    ghost Value = { SpecExpanded };

    ghost view = { λ s. s.protocol.now };

    ghost invariant = { λ s. IsSearch s.protocol.now (whole s.shared) s.runs };
}

impl<'a> EnactSearch<'a> {
    ghost use Rattle.std.specs.Prelude.{◌≡◌, ◌<◌, ◌≤◌, length, IfOk};
    ghost use Rattle.clause_core.specs.Assignment.{valuation};
    ghost use Rattle.clause_core.specs.Clause.{SatisfiesAll};
    ghost use Rattle.clause_encoding.specs.Formula.{safety_variables};
    ghost use Rattle.clause_encoding.specs.Variables.{variable_count};
    ghost use Rattle.enactability.specs.Answer.{HasEnactLogInRange, IsRightEnact};
    ghost use Rattle.enactability.specs.EnactFormula.{enact_clauses};
    ghost use Rattle.enactability.specs.inner.Search.{HasRightRun};

    /// Makes the shared clauses.
    pub fn new(alloc: Global, protocol: &'a Admitted) -> Result<EnactSearch<'a>, NoMemory>
        ensures { IfOk result (λ search. search ≡ protocol.now) }
    {
        let shared = shared_formula(alloc, protocol)?;
        Ok(EnactSearch {
            protocol,
            shared,
            runs: Seq::new(alloc),
        })
    }

    /// Decides whether some legal run emits the message, with no more than `budget` conflicts in
    /// the search.
    pub fn enactable(&mut self, alloc: Global, message: u32, budget: u32) -> Result<Enact, NoMemory>
        requires known { message < length self.old.messages }
        requires some { 1 ≤ budget }
        requires few { budget ≤ 2147483647 }
        ensures right { IfOk result (IsRightEnact self.old message budget) }
        ensures numbers { budget ≤ 1000000 → IfOk result HasEnactLogInRange }
        ensures same { self.new ≡ self.old }
    {
        // law: a run that was found is the evidence if it is cut so
        cut_enacts();
        match known_cut(alloc, self.runs.as_slice(), message)? {
            Some(run) => Ok(Enact::Enacted(run)),
            None => self.search(alloc, message, budget),
        }
    }

    /// Searches for a model of the formula of the message.
    fn search(&mut self, alloc: Global, message: u32, budget: u32) -> Result<Enact, NoMemory>
        requires known { message < length self.old.messages }
        requires some { 1 ≤ budget }
        requires few { budget ≤ 2147483647 }
        ensures right { IfOk result (IsRightEnact self.old message budget) }
        ensures numbers { budget ≤ 1000000 → IfOk result HasEnactLogInRange }
        ensures same { self.new ≡ self.old }
    {
        // law: a formula without a model says that no legal run emits the message
        no_model_is_dead();
        // laws: a model satisfies what is written, for each of which there is a clause
        written_is_satisfied();
        clauses_are_as_many();
        // laws: clauses and variables are few, so the numbers of a log are in range
        enact_clauses_are_few();
        variables_are_small();
        numbers_in_range();
        let formula = with_sent(alloc, &self.shared, message)?;
        match search_model(alloc, &formula, budget)? {
            Outcome::Sat(assignment) => self.enact(alloc, message, &assignment),
            Outcome::Unsat(log) => Ok(Enact::Dead(log)),
            Outcome::Budget(log) => Ok(Enact::Undecided(log)),
        }
    }

    /// The run of a model, cut after its first emission of the message. The whole run is kept.
    fn enact(
        &mut self,
        alloc: Global,
        message: u32,
        assignment: &Assignment,
    ) -> Result<Enact, NoMemory>
        requires known { message < length self.old.messages }
        requires all { variable_count (safety_variables self.old) ≤ length assignment.now }
        requires satisfied { SatisfiesAll (valuation assignment.now)
            (enact_clauses self.old message) }
        ensures right { IfOk result (HasRightRun self.old message) }
        ensures same { self.new ≡ self.old }
    {
        // law: the run of a model is the evidence if it is cut so
        cut_enacts();
        let whole = model_run(alloc, self.protocol, assignment)?;
        let run = cut_of(alloc, whole.as_slice(), message)?.unwrap();
        self.runs.push(whole)?;
        Ok(Enact::Enacted(run))
    }
}

/// Decides whether some legal run emits the message, with no more than `budget` conflicts in the
/// search.
pub fn enactable(alloc: Global, a: &Admitted, message: u32, budget: u32) -> Result<Enact, NoMemory>
    requires known { message < length a.now.messages }
    requires some { 1 ≤ budget }
    requires few { budget ≤ 2147483647 }
    ensures right { IfOk result (IsRightEnact a.now message budget) }
    ensures numbers { budget ≤ 1000000 → IfOk result HasEnactLogInRange }
{
    let mut search = EnactSearch::new(alloc, a)?;
    search.enactable(alloc, message, budget)
}

/// The run of an assignment that satisfies the clauses that all formulas share.
fn model_run(alloc: Global, a: &Admitted, assignment: &Assignment) -> Result<Run, NoMemory>
    requires all { variable_count (safety_variables a.now) ≤ length assignment.now }
    requires satisfied { SatisfiesAll (valuation assignment.now)
        (shared_clauses a.now (safety_variables a.now)) }
    ensures run { IfOk result
        (IsRunOfAssignment a.now (safety_variables a.now) (valuation assignment.now)) }
    ensures legal { IfOk result (IsLegalRun a.now) }
{
    let vars = safety_variables(alloc, a)?;
    order_run(alloc, a, vars, assignment)
}
