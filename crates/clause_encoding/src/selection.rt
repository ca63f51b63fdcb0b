ghost use Rattle.std.specs.Prelude.{◌≤◌, ◌<◌, ◌++◌, [], ◌∷◌, length, OnOk};
ghost use Rattle.std.specs.List.{All};
ghost use Rattle.clause_encoding.specs.Rivals.{rival_clauses, selected_is_sent};
ghost use Rattle.clause_core.specs.Written.{AppendsClauses};
ghost use Rattle.clause_encoding.specs.inner.Kinds.{AreWithin};
ghost use Rattle.clause_encoding.specs.inner.Selection.{selections, selector_lits};

use super::base::kind_count;
use super::clauses::positive_lits;
use super::kinds::sent;
use super::rivals::{Rivals, rivals_of};
use bspl_types::Expanded;
use clause_core::{ClauseList, positive, push_clause};
use list_base::NoMemory;
use std::alloc::Global;

/// Appends the clauses that select two rivals which are both sent.
pub(crate) fn push_rivals(
    clauses: &mut ClauseList,
    alloc: Global,
    x: &Expanded,
) -> Result<(), NoMemory>
    ensures { OnOk result (AppendsClauses clauses.old clauses.new (rival_clauses x.now)) }
{
    let rivals = rivals_of(alloc, x)?;
    push_rivals_on(clauses, alloc, kind_count(x), rivals.as_slice())
}

/// Appends those on these rivals. The variables that select them come after the kinds.
fn push_rivals_on(
    clauses: &mut ClauseList,
    alloc: Global,
    kinds: u32,
    rivals: &[Rivals],
) -> Result<(), NoMemory>
    requires few_kinds { kinds ≤ 128 }
    requires few_rivals { length rivals.now ≤ 262144 }
    requires known { All (AreWithin 64) rivals.now }
    ensures { let some = selector_lits kinds rivals.now ∷ [] in OnOk result
        (AppendsClauses clauses.old clauses.new (selections kinds rivals.now ++ some)) }
{
    push_selections(clauses, alloc, kinds, rivals)?;
    let lits = positive_lits(alloc, kinds + 1, rivals.len() as u32)?;
    push_clause(clauses, alloc, lits.as_slice())
}

/// Appends the clauses that make what is selected sent.
fn push_selections(
    clauses: &mut ClauseList,
    alloc: Global,
    kinds: u32,
    rivals: &[Rivals],
) -> Result<(), NoMemory>
    requires few_kinds { kinds ≤ 128 }
    requires few_rivals { length rivals.now ≤ 262144 }
    requires known { All (AreWithin 64) rivals.now }
    ensures { OnOk result (AppendsClauses clauses.old clauses.new (selections kinds rivals.now)) }
{
    for (n, pair) in rivals.iter().enumerate() {
        push_selection(clauses, alloc, kinds + 1 + n as u32, *pair)?;
    }
    Ok(())
}

/// Appends those of two rivals.
fn push_selection(
    clauses: &mut ClauseList,
    alloc: Global,
    selector: u32,
    rivals: Rivals,
) -> Result<(), NoMemory>
    requires { AreWithin 64 rivals }
    ensures { OnOk result
        (AppendsClauses clauses.old clauses.new (selected_is_sent (selector, rivals))) }
{
    let unselected = positive(selector).negation();
    push_clause(clauses, alloc, &[unselected, positive(sent(rivals.first))])?;
    push_clause(clauses, alloc, &[unselected, positive(sent(rivals.second))])
}
