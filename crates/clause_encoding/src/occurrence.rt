ghost use Rattle.std.specs.Prelude.{OnOk};
ghost use Rattle.clause_encoding.specs.Families.{occurrence_clauses};
ghost use Rattle.clause_encoding.specs.Variables.{IsKind, IsSmall};
ghost use Rattle.clause_core.specs.Written.{AppendsClauses};
ghost use Rattle.clause_encoding.specs.inner.Occurrence.{occurrence_of_one, occurrence_of_two};

use super::variables::Variables;
use clause_core::{ClauseList, push_clause};
use list_base::NoMemory;
use std::alloc::Global;

/// Appends the clauses that put what occurs before what does not.
pub(crate) fn push_occurrence(
    clauses: &mut ClauseList,
    alloc: Global,
    vars: Variables,
) -> Result<(), NoMemory>
    requires { IsSmall vars }
    ensures { OnOk result (AppendsClauses clauses.old clauses.new (occurrence_clauses vars)) }
{
    for i in 1..vars.kinds + 1 {
        push_occurrence_of_one(clauses, alloc, vars, i)?;
    }
    Ok(())
}

/// Appends those of the kind with each other one.
fn push_occurrence_of_one(
    clauses: &mut ClauseList,
    alloc: Global,
    vars: Variables,
    i: u32,
) -> Result<(), NoMemory>
    requires small { IsSmall vars }
    requires kind { IsKind vars i }
    ensures { OnOk result (AppendsClauses clauses.old clauses.new (occurrence_of_one vars i)) }
{
    for j in 1..vars.kinds + 1 {
        push_occurrence_of_two(clauses, alloc, vars, i, j)?;
    }
    Ok(())
}

/// Appends that of the two kinds, if they differ.
fn push_occurrence_of_two(
    clauses: &mut ClauseList,
    alloc: Global,
    vars: Variables,
    i: u32,
    j: u32,
) -> Result<(), NoMemory>
    requires small { IsSmall vars }
    requires kinds { (IsKind vars i) × (IsKind vars j) }
    ensures { OnOk result (AppendsClauses clauses.old clauses.new (occurrence_of_two vars i j)) }
{
    if j == i {
        return Ok(());
    }
    let lits = [vars.occurs(i).negation(), vars.occurs(j), vars.before(i, j)];
    push_clause(clauses, alloc, &lits)
}
