ghost use Rattle.std.specs.Prelude.{◌+◌, ◌^◌, ◌<◌, ◌≤◌, length, IfOk};
ghost use Rattle.order_axioms.specs.Formula.{whole};
ghost use Rattle.refutation_log.specs.Resolution.{Accepts};
ghost use Rattle.verdict.specs.Search.{IsFound};
ghost use Rattle.verdict.specs.inner.Answer.{IsChecked};

use list_base::NoMemory;
use log_checker::{Reject, check_ordered_log};
use order_axioms::OrderedFormula;
use refutation_log::Log;
use sat_solver::{Outcome, solve_ordered};
use std::alloc::Global;

/// Searches for an assignment that satisfies the formula: there is one, a refutation, which the
/// separate checker accepts, or neither within the budget.
pub fn search_model(
    alloc: Global,
    formula: &OrderedFormula,
    budget: u32,
) -> Result<Outcome, NoMemory>
    requires some { 1 ≤ budget }
    requires few { length (whole formula.now).clauses + budget < 2 ^ 32 }
    ensures { IfOk result (IsFound (whole formula.now) budget) }
{
    match solve_ordered(alloc, formula, budget)? {
        Outcome::Sat(assignment) => Ok(Outcome::Sat(assignment)),
        Outcome::Unsat(log) => checked(alloc, formula, log),
        Outcome::Budget(log) => Ok(Outcome::Budget(log)),
    }
}

/// The log, which the checker accepts unless memory runs out.
fn checked(alloc: Global, formula: &OrderedFormula, log: Log) -> Result<Outcome, NoMemory>
    requires few { length (whole formula.now).clauses + length log.steps < 2 ^ 32 }
    requires accepted { Accepts (whole formula.now) log }
    ensures { IfOk result (IsChecked (whole formula.now) log) }
{
    match check_ordered_log(alloc, formula, &log) {
        Ok(()) => Ok(Outcome::Unsat(log)),
        Err(Reject::NoMemory) => Err(NoMemory),
        Err(_) => unreachable!(),
    }
}
