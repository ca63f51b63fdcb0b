ghost use Rattle.std.specs.Prelude.{◌≡◌, ◌++◌, [], List, All, IfOk, IfErr, OnOk};
ghost use Rattle.clause_core.specs.declared.literal.Lit.{Lit};
ghost use Rattle.clause_core.specs.Clause.{VariablesExist};
ghost use Rattle.clause_core.specs.Numbering.{live};
ghost use Rattle.refutation_log.specs.Resolution.{Derives, Resolved};
ghost use Rattle.log_checker.specs.inner.Marks.{IsClear, Marks};
ghost use Rattle.log_checker.specs.inner.Stops.{LinkStops, ChainStops};

use super::clause_table::ClauseTable;
use super::mark_table::MarkTable;
use super::refusal::ChainError;
use clause_core::{Clause, equal_members, lists_have_clauses};
use refutation_log::{Chain, Link};
use std::alloc::Global;

/// The clause that the chain derives from the live clauses of the table. Nothing is marked before,
/// nor after a clause was derived.
pub fn chain_clause(
    alloc: Global,
    table: &ClauseTable<'_>,
    chain: &Chain,
    marks: &mut MarkTable,
) -> Result<Clause, ChainError>
    requires { IsClear marks.old (table.now.formula ++ table.now.derived) }
    ensures ok { IfOk result (Derives (live table.now.ledger) chain.now) }
    ensures exist { IfOk result (λ clause. VariablesExist marks.old.vars clause) }
    ensures empty { OnOk result (Marks marks.new []) }
    ensures vars { OnOk result (marks.new.vars ≡ marks.old.vars) }
    ensures err { IfErr result (ChainStops (live table.now.ledger) chain.now) }
{
    let Some(first) = table.clause_of(chain.first) else {
        return Err(ChainError::NoClause);
    };
    marks.insert_all(first.lits())?;
    for (index, link) in chain.links.as_slice().iter().enumerate() {
        fold_link(table, *link, index as u64 + 1, marks)?;
    }
    // law: clauses with the same literals are equal
    equal_members();
    Ok(marks.take_clause(alloc)?)
}

/// Resolves the marked clause with that of the link, the chain's link of this number.
fn fold_link(
    table: &ClauseTable<'_>,
    link: Link,
    number: u64,
    marks: &mut MarkTable,
) -> Result<(), ChainError>
    requires exist { All (VariablesExist marks.old.vars)
        (table.now.formula ++ table.now.derived) }
    ensures vars { OnOk result (marks.new.vars ≡ marks.old.vars) }
    ensures ok { (clause : List Lit) → Marks marks.old clause → OnOk result
        (Resolved (live table.now.ledger) clause link (Marks marks.new)) }
    ensures err { (clause : List Lit) → Marks marks.old clause → IfErr result
        (LinkStops (live table.now.ledger) clause link number) }
{
    let Some(other) = table.clause_of(link.clause) else {
        return Err(ChainError::NoClause);
    };
    if !marks.has(link.pivot) || !other.has(link.pivot.negation()) {
        return Err(ChainError::NoPivot { link: number });
    }
    // law: each list of literals has a clause
    lists_have_clauses();
    marks.resolve(link.pivot, other.lits())?;
    Ok(())
}
