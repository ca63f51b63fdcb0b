ghost use Rattle.std.specs.Prelude.{◌≡◌, ◌+◌, ◌<◌, IsTrue, IfOk, IfSome, length};
ghost use Rattle.clause_core.specs.Assignment.{valuation};
ghost use Rattle.clause_core.specs.Clause.{SatisfiesAll};
ghost use Rattle.order_axioms.specs.Formula.{whole};
ghost use Rattle.sat_solver.specs.Outcome.{IsModel};
ghost use Rattle.sat_solver.specs.inner.Completion.{AreByPlaces, IsByPlaces};

use super::given_formula::GivenFormula;
use super::kind_places::late_places;
use clause_core::{Assignment, Formula};
use list_base::{NoMemory, Seq};
use order_axioms::{Order, OrderedFormula, clauses_forbid_cycles};
use order_propagator::OrderTrail;
use std::alloc::Global;

/// A model of the formula, if it has an order and one is found by a sort: what the trail knows is
/// kept, each other variable of no pair is false, and kind 1 comes as late as it can, then kind 2,
/// and so on. Decisions that set the lowest variable false come to the same model, one by one.
pub fn completed(
    alloc: Global,
    f: &GivenFormula,
    trail: &OrderTrail,
) -> Result<Option<Assignment>, NoMemory>
    ensures { IfOk result (λ found. IfSome found (IsModel f.now)) }
{
    match f.with_order() {
        Some(ordered) => completed_order(alloc, ordered, trail),
        None => Ok(None),
    }
}

/// The same of a formula with an order.
fn completed_order(
    alloc: Global,
    f: &OrderedFormula,
    trail: &OrderTrail,
) -> Result<Option<Assignment>, NoMemory>
    ensures { IfOk result (λ found. IfSome found (IsModel (whole f.now))) }
{
    let places = late_places(f.order, trail);
    let assignment = placed_assignment(alloc, f.order, trail, &places)?;
    if is_model(f, &assignment, &places) {
        Ok(Some(assignment))
    } else {
        Ok(None)
    }
}

/// The values of the trail, with false for those that are missing, and with those of the places for
/// the variables of pairs.
fn placed_assignment(
    alloc: Global,
    order: Order,
    trail: &OrderTrail,
    places: &[u32; 129],
) -> Result<Assignment, NoMemory> {
    let mut values: Seq<bool> = Seq::with_room(alloc, trail.vars() as usize)?;
    for index in 0..trail.vars() {
        values.push(trail.value(index + 1).unwrap_or(false))?;
    }
    set_pairs(&mut values, order, places);
    let assignment = Assignment::of(alloc, values.as_slice())?;
    Ok(assignment)
}

/// Gives each variable of a pair, of those that have a value, the one of the places.
fn set_pairs(values: &mut Seq<bool>, order: Order, places: &[u32; 129])
    ensures { length values.new ≡ length values.old }
{
    for i in 1..order.kinds {
        for j in i + 1..order.kinds + 1 {
            let var = order.comes_before(i, j).var as usize;
            if 0 < var && var <= values.len() {
                values.replace(var - 1, places[i as usize] < places[j as usize]);
            }
        }
    }
}

/// Whether the assignment is seen to be a model. The order's clauses hold by the places, and are
/// not made.
fn is_model(f: &OrderedFormula, assignment: &Assignment, places: &[u32; 129]) -> bool
    ensures { IsTrue result → IsModel (whole f.now) assignment.now }
{
    // law: each clause of an order forbids a cycle of three kinds
    clauses_forbid_cycles();
    if assignment.vars() != f.stored.vars {
        return false;
    }
    satisfies_stored(assignment, &f.stored) && is_by_places(assignment, f.order, places)
}

/// Whether the assignment satisfies all clauses that are stored.
fn satisfies_stored(assignment: &Assignment, f: &Formula) -> bool
    requires { length assignment.now ≡ f.now.vars }
    ensures { IsTrue result → SatisfiesAll (valuation assignment.now) f.now.clauses }
{
    for clause in f.clauses.as_slice() {
        if !assignment.satisfies(clause) {
            return false;
        }
    }
    true
}

/// Whether the assignment orders all kinds by their places.
fn is_by_places(assignment: &Assignment, order: Order, places: &[u32; 129]) -> bool
    ensures { IsTrue result → IsByPlaces order (valuation assignment.now) places.now }
{
    for first in 1..order.kinds {
        if !are_by_places(assignment, order, places, first) {
            return false;
        }
    }
    true
}

/// Whether it orders a kind and each later one by their places.
fn are_by_places(assignment: &Assignment, order: Order, places: &[u32; 129], first: u32) -> bool
    requires from_one { 0 < first }
    requires below { first < order.kinds }
    ensures { IsTrue result →
        AreByPlaces order (valuation assignment.now) places.now first (order.kinds + 1) }
{
    for second in first + 1..order.kinds + 1 {
        let var = order.comes_before(first, second).var;
        if var == 0 || var > assignment.vars() {
            return false;
        }
        if assignment.value(var) != (places[first as usize] < places[second as usize]) {
            return false;
        }
    }
    true
}
