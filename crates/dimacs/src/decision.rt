ghost use Rattle.std.specs.Prelude.{ℕ, List, ◌+◌, ◌^◌, ◌<◌, ◌≤◌, length, IfOk, IfErr, OnOk};
ghost use Rattle.clause_core.specs.Clause.{IsUnsatisfiable};
ghost use Rattle.refutation_log.specs.Resolution.{Accepts};
ghost use Rattle.lrat_text.specs.Proof.{IsProofOf};
ghost use Rattle.dimacs.specs.Refusal.{IsCauseOf};
ghost use Rattle.dimacs.specs.Verdict.{IsFormulaOf, IsRightVerdict};
ghost use Rattle.sat_solver.specs.Outcome.{Refutes};

use super::arguments::Options;
use super::lines::formula_of;
use super::refusal::Refusal;
use super::verdict::Verdict;
use clause_core::Formula;
use list_base::{Bytes, NoMemory};
use log_checker::{Reject, accepted_is_unsatisfiable, check_log};
use lrat_text::lrat_proof;
use refutation_log::Log;
use sat_solver::{Outcome, SearchStats, solve_counted};
use std::alloc::Global;

/// Decides the formula of a text, which is let go before the search. A refutation has a log of at
/// most `budget` steps, and the answer is unknown only if a log has exactly `budget` of them.
pub fn decide(alloc: Global, options: Options, text: Bytes) -> Result<Verdict, Refusal>
    requires { 1 ≤ options.budget }
    ensures right { IfOk result (IsRightVerdict text options) }
    ensures refused { IfErr result (IsCauseOf text options.budget) }
{
    let formula = formula_of(alloc, text.as_slice())?;
    drop(text);
    if formula.clauses.len() as u64 + u64::from(options.budget) >= 1 << 32 {
        return Err(Refusal::TooMany);
    }
    let mut stats = SearchStats::none();
    match solve_counted(alloc, &formula, options.budget, &mut stats)? {
        Outcome::Sat(assignment) => Ok(Verdict::Satisfiable { assignment, stats }),
        Outcome::Unsat(log) => Ok(refuted(alloc, options, &formula, &log, stats)?),
        Outcome::Budget(_) => Ok(Verdict::Unknown { stats }),
    }
}

/// The verdict by a log of the solver: its proof, if one is asked for.
fn refuted(
    alloc: Global,
    options: Options,
    formula: &Formula,
    log: &Log,
    stats: SearchStats,
) -> Result<Verdict, NoMemory>
    requires few { length formula.now.clauses + length log.now.steps < 2 ^ 32 }
    requires accepted { Accepts formula.now log.now }
    ensures { (text : List ℕ) → IsFormulaOf text formula.now →
        Refutes formula.now options.budget log.now →
        IfOk result (IsRightVerdict text options) }
{
    if options.lrat {
        let proof = proof(alloc, formula, log)?;
        Ok(Verdict::Proved { proof })
    } else {
        check(alloc, formula, log)?;
        Ok(Verdict::Unsatisfiable { stats })
    }
}

/// Checks a log of the solver, so that "unsatisfiable" rests on the checker.
fn check(alloc: Global, formula: &Formula, log: &Log) -> Result<(), NoMemory>
    requires few { length formula.now.clauses + length log.now.steps < 2 ^ 32 }
    requires accepted { Accepts formula.now log.now }
    ensures { OnOk result (IsUnsatisfiable formula.now.clauses) }
{
    match check_log(alloc, formula, log) {
        Ok(()) => Ok(()),
        Err(Reject::NoMemory) => Err(NoMemory),
        Err(_) => unreachable!(),
    }
}

/// The proof by a log of the solver, which is checked when the proof is made.
fn proof(alloc: Global, formula: &Formula, log: &Log) -> Result<Bytes, NoMemory>
    requires few { length formula.now.clauses + length log.now.steps < 2 ^ 32 }
    requires accepted { Accepts formula.now log.now }
    ensures proves { IfOk result (IsProofOf formula.now log.now) }
    ensures none { IfOk result (λ _. IsUnsatisfiable formula.now.clauses) }
{
    // law: no valuation satisfies a formula for which a log is accepted
    accepted_is_unsatisfiable();
    match lrat_proof(alloc, formula, log) {
        Ok(text) => Ok(text),
        Err(Reject::NoMemory) => Err(NoMemory),
        Err(_) => unreachable!(),
    }
}
