ghost use Rattle.std.specs.Prelude.{◌+◌, ◌^◌, ◌<◌, [], length, IfOk, Contains};
ghost use Rattle.order_axioms.specs.Formula.{whole};
ghost use Rattle.sat_solver.specs.Outcome.{IsOutcome};
ghost use Rattle.sat_solver.specs.inner.Ending.{IsEnding};
ghost use Rattle.sat_solver.specs.inner.Learner.{IsNewLearner};

use super::given_formula::GivenFormula;
use super::learner::Learner;
use super::model::model;
use super::outcome::Outcome;
use super::search::SearchResult;
use super::search_stats::SearchStats;
use clause_core::{Assignment, Formula};
use list_base::{NoMemory, Seq};
use order_axioms::OrderedFormula;
use refutation_log::{Log, new_clause_appends, plain_resolves, step_appends};
use std::alloc::Global;

/// How a search ends.
#[derive(Drop)]
pub enum Ending {
    /// The assignment satisfies the formula.
    Model(Assignment),
    /// The last step derives the empty clause.
    Refuted,
    /// Each conflict of the budget had its step, and one more was found.
    Spent,
}

/// Decides the formula by learning a clause at each conflict, as GRASP and Chaff do. A log has no
/// more steps than the budget says. After the last of them the search goes on to the next conflict,
/// and a model that it comes to before is the answer.
pub fn solve(alloc: Global, f: &Formula, budget: u32) -> Result<Outcome, NoMemory>
    requires few { length f.now.clauses + budget < 2 ^ 32 }
    ensures { IfOk result (IsOutcome f.now budget) }
{
    let mut stats = SearchStats::none();
    solve_counted(alloc, f, budget, &mut stats)
}

/// As `solve`, and adds what was done to the counts. These are for those who measure: no contract
/// says what they are.
pub fn solve_counted(
    alloc: Global,
    f: &Formula,
    budget: u32,
    stats: &mut SearchStats,
) -> Result<Outcome, NoMemory>
    requires few { length f.now.clauses + budget < 2 ^ 32 }
    ensures { IfOk result (IsOutcome f.now budget) }
{
    solve_given(alloc, &GivenFormula::plain(f), budget, stats)
}

/// As `solve`, of a formula with an order. The order's clauses are not stored: one is made when it is
/// unit or false in the search, which is a matter of speed and in no contract.
pub fn solve_ordered(alloc: Global, f: &OrderedFormula, budget: u32) -> Result<Outcome, NoMemory>
    requires few { length (whole f.now).clauses + budget < 2 ^ 32 }
    ensures { IfOk result (IsOutcome (whole f.now) budget) }
{
    let mut stats = SearchStats::none();
    solve_given(alloc, &GivenFormula::ordered(f), budget, &mut stats)
}

/// The same, of a formula with or without an order.
fn solve_given(
    alloc: Global,
    f: &GivenFormula,
    budget: u32,
    stats: &mut SearchStats,
) -> Result<Outcome, NoMemory>
    requires few { length f.now.clauses + budget < 2 ^ 32 }
    ensures { IfOk result (IsOutcome f.now budget) }
{
    // law: a log without removals resolves if each step derives its clause from all before it
    plain_resolves();
    let clauses = f.clauses(alloc)?;
    if clauses.has_empty() {
        return Ok(Outcome::Unsat(Log::plain(alloc, Seq::new(alloc))));
    }
    let mut learner = Learner::new(alloc, f)?;
    let ending = search_within(alloc, f, budget, &mut learner, stats)?;
    match ending {
        Ending::Model(assignment) => Ok(Outcome::Sat(assignment)),
        Ending::Refuted => Ok(Outcome::Unsat(learner.into_log(alloc))),
        Ending::Spent => Ok(Outcome::Budget(learner.into_log(alloc))),
    }
}

/// Searches and learns until the formula is decided, or one more conflict is found after the budget
/// is spent. A model that needs no further clause is found before that.
fn search_within(
    alloc: Global,
    f: &GivenFormula,
    budget: u32,
    learner: &mut Learner,
    stats: &mut SearchStats,
) -> Result<Ending, NoMemory>
    requires few { length f.now.clauses + budget < 2 ^ 32 }
    requires none { ¬ Contains f.now.clauses [] }
    requires new { IsNewLearner f.now learner.old }
    ensures { IfOk result (IsEnding f.now budget learner.new.steps) }
{
    // law: a log without removals resolves if each step derives its clause from all before it
    plain_resolves();
    // law: a step at the end of a log derives its clause from all the clauses before it
    step_appends();
    // law: new clauses stay new if a new one comes after them
    new_clause_appends();
    let mut learned = 0;
    'learning: loop {
        let found = learner.search(alloc, f, stats)?;
        let number = match found {
            SearchResult::Falsified(number) => number,
            SearchResult::Completed(assignment) => return Ok(Ending::Model(assignment)),
            SearchResult::Finished => return Ok(Ending::Model(model(alloc, &learner.trail)?)),
        };
        if learned == budget {
            return Ok(Ending::Spent);
        }
        stats.conflicts = stats.conflicts.saturating_add(1);
        if learner.trail.level() == 0 {
            learner.refute(alloc, number)?;
            return Ok(Ending::Refuted);
        }
        learner.learn(alloc, number)?;
        learned += 1;
    }
}
