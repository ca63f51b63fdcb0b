ghost use Rattle.std.specs.Prelude.{[], ◌∷◌, OnOk};
ghost use Rattle.clause_core.specs.Written.{AppendsClauses};

use super::clause::{Clause, ClauseList};
use super::literal::Lit;
use list_base::NoMemory;
use std::alloc::Global;

/// Appends the clause with these literals, in any order, repeated or not.
pub fn push_clause(clauses: &mut ClauseList, alloc: Global, lits: &[Lit]) -> Result<(), NoMemory>
    ensures { OnOk result (AppendsClauses clauses.old clauses.new (lits.now ∷ [])) }
{
    clauses.push(Clause::of(alloc, lits)?)?;
    Ok(())
}
