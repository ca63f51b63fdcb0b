ghost use Rattle.std.specs.Prelude.{◌<◌, length, OnOk};
ghost use Rattle.std.specs.List.{flat_map};
ghost use Rattle.bspl_types.specs.Expansion.{message_of};
ghost use Rattle.clause_encoding.specs.Carriers.{fresh_parameters};
ghost use Rattle.clause_encoding.specs.Families.{fresh_clauses_of, freshness_clauses};
ghost use Rattle.clause_core.specs.Written.{AppendsClauses};
ghost use Rattle.clause_encoding.specs.inner.Kinds.{AreOver};

use super::carrier_kinds::sender_carriers;
use super::kinds::sent;
use super::parameters::fresh_parameters;
use super::variables::Variables;
use bspl_types::Expanded;
use clause_core::{ClauseList, push_clause};
use list_base::NoMemory;
use std::alloc::Global;

/// Appends the clauses that keep each `out` and `nil` parameter unknown until it is sent.
pub(crate) fn push_freshness(
    clauses: &mut ClauseList,
    alloc: Global,
    x: &Expanded,
    vars: Variables,
) -> Result<(), NoMemory>
    requires { AreOver x.now vars }
    ensures { OnOk result (AppendsClauses clauses.old clauses.new (freshness_clauses x.now vars)) }
{
    for m in 0..x.messages.len() as u32 {
        push_freshness_of(clauses, alloc, x, vars, m)?;
    }
    Ok(())
}

/// Appends those of one message.
fn push_freshness_of(
    clauses: &mut ClauseList,
    alloc: Global,
    x: &Expanded,
    vars: Variables,
    m: u32,
) -> Result<(), NoMemory>
    requires over { AreOver x.now vars }
    requires known { m < length x.now.messages }
    ensures { let params = fresh_parameters (message_of x.now m) in OnOk result
        (AppendsClauses clauses.old clauses.new (flat_map (fresh_clauses_of x.now vars m) params)) }
{
    let params = fresh_parameters(alloc, x.message_at(m))?;
    for param in params.as_slice() {
        push_freshness_for(clauses, alloc, x, vars, m, *param)?;
    }
    Ok(())
}

/// Appends those of one parameter.
fn push_freshness_for(
    clauses: &mut ClauseList,
    alloc: Global,
    x: &Expanded,
    vars: Variables,
    m: u32,
    param: u32,
) -> Result<(), NoMemory>
    requires over { AreOver x.now vars }
    requires known { m < length x.now.messages }
    ensures { OnOk result
        (AppendsClauses clauses.old clauses.new (fresh_clauses_of x.now vars m param)) }
{
    let carriers = sender_carriers(alloc, x, m, param)?;
    let emission = sent(m);
    for carrier in carriers.as_slice() {
        let lits = [
            vars.occurs(emission).negation(),
            vars.before(*carrier, emission).negation(),
        ];
        push_clause(clauses, alloc, &lits)?;
    }
    Ok(())
}
