ghost use Rattle.std.specs.Prelude.{◌≡◌, ◌+◌, ◌<◌, ◌≤◌, ◌++◌, length, map, IfOk, OnOk};
ghost use Rattle.clause_encoding.specs.Carriers.{sender_carriers};
ghost use Rattle.clause_encoding.specs.Rest.{blockers, exhaustion_clause, exhaustion_clauses};
ghost use Rattle.clause_encoding.specs.Variables.{occurs};
ghost use Rattle.clause_core.specs.Written.{AppendsClauses};
ghost use Rattle.clause_encoding.specs.inner.Lacking.{AreWants, wanted_lits};

use super::carrier_kinds::sender_carriers;
use super::kinds::sent;
use super::parameters::fresh_parameters;
use super::wants::Want;
use bspl_types::Expanded;
use clause_core::{ClauseList, Lit, positive, push_clause};
use list_base::{NoMemory, Seq};
use std::alloc::Global;

/// Appends the clauses that leave no message to be sent. The variable of the first want is `first`.
pub(crate) fn push_exhaustion(
    clauses: &mut ClauseList,
    alloc: Global,
    x: &Expanded,
    first: u32,
    wants: &[Want],
) -> Result<(), NoMemory>
    requires { AreWants x.now first wants.now }
    ensures { OnOk result (AppendsClauses clauses.old clauses.new (exhaustion_clauses x.now)) }
{
    for m in 0..x.messages.len() as u32 {
        let lits = exhaustion_clause(alloc, x, first, wants, m)?;
        push_clause(clauses, alloc, lits.as_slice())?;
    }
    Ok(())
}

/// The literals of the clause of one message.
fn exhaustion_clause(
    alloc: Global,
    x: &Expanded,
    first: u32,
    wants: &[Want],
    m: u32,
) -> Result<Seq<Lit>, NoMemory>
    requires wants { AreWants x.now first wants.now }
    requires known { m < length x.now.messages }
    ensures { IfOk result (λ lits. lits ≡ exhaustion_clause x.now m) }
{
    let mut lits = Seq::new(alloc);
    lits.push(positive(sent(m)))?;
    add_wanted(&mut lits, first, wants, m)?;
    add_blockers(&mut lits, alloc, x, m)?;
    Ok(lits)
}

/// Appends the literals that the message's sender lacks a parameter.
fn add_wanted(lits: &mut Seq<Lit>, first: u32, wants: &[Want], m: u32) -> Result<(), NoMemory>
    requires { first + length wants.now ≤ 4096 }
    ensures { OnOk result (lits.new ≡ lits.old ++ wanted_lits first wants.now m) }
{
    for (n, want) in wants.iter().enumerate() {
        if want.message == m {
            lits.push(positive(first + n as u32))?;
        }
    }
    Ok(())
}

/// Appends the literals that its sender knows an `out` or `nil` parameter.
fn add_blockers(lits: &mut Seq<Lit>, alloc: Global, x: &Expanded, m: u32) -> Result<(), NoMemory>
    requires { m < length x.now.messages }
    ensures { OnOk result (lits.new ≡ lits.old ++ map occurs (blockers x.now m)) }
{
    let params = fresh_parameters(alloc, x.message_at(m))?;
    for param in params.as_slice() {
        add_blockers_for(lits, alloc, x, m, *param)?;
    }
    Ok(())
}

/// Appends those of one parameter.
fn add_blockers_for(
    lits: &mut Seq<Lit>,
    alloc: Global,
    x: &Expanded,
    m: u32,
    param: u32,
) -> Result<(), NoMemory>
    requires { m < length x.now.messages }
    ensures { OnOk result (lits.new ≡ lits.old ++ map occurs (sender_carriers x.now m param)) }
{
    let carriers = sender_carriers(alloc, x, m, param)?;
    for carrier in carriers.as_slice() {
        lits.push(positive(*carrier))?;
    }
    Ok(())
}
