ghost use Rattle.std.specs.Prelude.{◌≡◌, ◌+◌, ◌^◌, ◌<◌, ◌≤◌, length, IfOk};
ghost use Rattle.bspl_types.specs.declared.property.Property.TheVariants as properties;
ghost use Rattle.clause_core.specs.Assignment.{valuation};
ghost use Rattle.clause_core.specs.Clause.{SatisfiesAll};
ghost use Rattle.clause_encoding.specs.Formula.{IsFormula, clauses_of, variables_of};
ghost use Rattle.clause_encoding.specs.Variables.{variable_count};
ghost use Rattle.enactment_model.specs.Producers.{HasOneProducer};
ghost use Rattle.order_axioms.specs.Formula.{whole};
ghost use Rattle.verdict.specs.Decision.{HasLogInRange, IsDecided, IsProvedByEmptyLog};
ghost use Rattle.verdict.specs.inner.Answer.{HasRefutingRun, IsAnswer, IsAnswered};

use super::laws::numbers_in_range;
use super::outcome::Decision;
use super::search::search_model;
use bspl_types::{Admitted, Property};
use clause_core::Assignment;
use clause_encoding::{ordered_formula_of, variables_are_small, written_is_satisfied};
use first_occurrences::unsatisfiable_holds;
use list_base::NoMemory;
use order_axioms::OrderedFormula;
use refutation_log::{new_resolves, steps_are_counted};
use sat_solver::Outcome;
use std::alloc::Global;
use witness_replay::witness_of;

/// Decides whether the protocol has the property, with no more than `budget` conflicts in the
/// search (after Singh 2012). The search proposes, and the separate checker decides.
pub fn decide(
    alloc: Global,
    property: Property,
    a: &Admitted,
    budget: u32,
) -> Result<Decision, NoMemory>
    requires some { 1 ≤ budget }
    requires few { budget ≤ 2147483647 }
    ensures right { IfOk result (IsDecided property a.now budget) }
    ensures single { property ≡ properties.Safety → HasOneProducer a.now →
        IfOk result IsProvedByEmptyLog }
    ensures numbers { budget ≤ 1000000 → IfOk result HasLogInRange }
{
    // law: the numbers of a log that resolves are in range
    numbers_in_range();
    // laws: a new log resolves, and one that resolves derives a clause for each step
    new_resolves();
    steps_are_counted();
    // law: a formula has few variables
    variables_are_small();
    let formula = ordered_formula_of(alloc, property, a)?;
    decide_by(alloc, property, a, &formula, budget)
}

/// The answer to what the search over the formula finds.
fn decide_by(
    alloc: Global,
    property: Property,
    a: &Admitted,
    formula: &OrderedFormula,
    budget: u32,
) -> Result<Decision, NoMemory>
    requires some { 1 ≤ budget }
    requires few { length (whole formula.now).clauses + budget < 2 ^ 32 }
    requires is_formula { IsFormula property a.now (whole formula.now) }
    ensures { IfOk result (IsAnswered (whole formula.now) budget (IsAnswer property a.now)) }
{
    // law: a protocol has a property if the formula of both has no model
    unsatisfiable_holds();
    // law: a model of the formula satisfies what is written
    written_is_satisfied();
    // law: what was admitted is admitted
    a.is_admitted();
    match search_model(alloc, formula, budget)? {
        Outcome::Sat(assignment) => refuted(alloc, property, a, &assignment),
        Outcome::Unsat(log) => Ok(Decision::Proved(log)),
        Outcome::Budget(log) => Ok(Decision::Undecided(log)),
    }
}

/// The run of an assignment that satisfies the clauses of the property.
fn refuted(
    alloc: Global,
    property: Property,
    a: &Admitted,
    assignment: &Assignment,
) -> Result<Decision, NoMemory>
    requires all { variable_count (variables_of property a.now) ≤ length assignment.now }
    requires satisfied { SatisfiesAll (valuation assignment.now) (clauses_of property a.now) }
    ensures { IfOk result (HasRefutingRun property a.now) }
{
    let run = witness_of(alloc, property, a, assignment)?;
    Ok(Decision::Refuted(run))
}
