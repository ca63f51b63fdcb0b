ghost use Rattle.std.specs.Prelude.{◌≡◌, ◌++◌, ◌≤◌, All, length, take, OnOk};
ghost use Rattle.circuit_clauses.specs.Condition.{IsOver, condition_of};
ghost use Rattle.clause_core.specs.Clause.{VariablesExist};
ghost use Rattle.question_formula.specs.inner.Shared.{AppendsSome, AssertsToo};
ghost use Rattle.question_formula.specs.inner.Shared.{KeepsFirst, first_clauses};

use super::asserted::asserted_formula;
use circuit_clauses::Circuit;
use clause_core::{ClauseList, Formula};
use list_base::{NoMemory, TryClone};
use order_axioms::OrderedFormula;
use std::alloc::Global;

/// Puts the clauses that the condition is met in the place of all stored ones but the first. They
/// are over so many variables, as the condition is.
pub(crate) fn put_condition(
    alloc: Global,
    f: &mut OrderedFormula,
    first: usize,
    vars: u32,
    c: &Circuit,
) -> Result<(), NoMemory>
    requires there { first ≤ length f.old.stored.clauses }
    requires exist { All (VariablesExist vars) (first_clauses f.old first) }
    requires over { IsOver vars (condition_of c.now) }
    ensures kept { KeepsFirst first f.old f.new }
    ensures ok { OnOk result (AssertsToo first vars (condition_of c.now) f.old f.new) }
{
    let own = asserted_formula(alloc, vars, c)?;
    put_behind(&mut f.stored, first, &own)
}

/// Puts the clauses of the other formula, and its variables, in the place of all clauses but the
/// first ones. An error leaves these, and no more than some of the others.
fn put_behind(f: &mut Formula, first: usize, own: &Formula) -> Result<(), NoMemory>
    requires there { first ≤ length f.old.clauses }
    requires exist { All (VariablesExist own.now.vars) (take first f.old.clauses) }
    ensures vars { f.new.vars ≡ own.now.vars }
    ensures ok { OnOk result (f.new.clauses ≡ take first f.old.clauses ++ own.now.clauses) }
    ensures some { AppendsSome (take first f.old.clauses) own.now.clauses f.new.clauses }
{
    cut(&mut f.clauses, first);
    f.vars = own.vars;
    append_copies(&mut f.clauses, &own.clauses)
}

/// Takes away all but the first ones.
fn cut(clauses: &mut ClauseList, first: usize)
    requires { first ≤ length clauses.old }
    ensures { clauses.new ≡ take first clauses.old }
{
    while clauses.len() > first {
        let _ = clauses.pop();
    }
}

/// Puts a copy of each of the others at the end, or of some where memory runs out.
fn append_copies(clauses: &mut ClauseList, others: &ClauseList) -> Result<(), NoMemory>
    ensures ok { OnOk result (clauses.new ≡ clauses.old ++ others.now) }
    ensures some { AppendsSome clauses.old others.now clauses.new }
{
    for clause in others.as_slice() {
        clauses.push(clause.try_clone()?)?;
    }
    Ok(())
}
