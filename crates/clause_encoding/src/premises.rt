ghost use Rattle.std.specs.Prelude.{◌≡◌, ◌<◌, length, map, IfOk, OnOk};
ghost use Rattle.bspl_types.specs.Expansion.{message_of};
ghost use Rattle.clause_encoding.specs.Carriers.{in_parameters};
ghost use Rattle.clause_encoding.specs.Families.{premise_clause, premise_clauses};
ghost use Rattle.clause_core.specs.Written.{AppendsClauses};
ghost use Rattle.clause_encoding.specs.inner.Kinds.{AreOver};

use super::carrier_kinds::sender_carriers;
use super::kinds::sent;
use super::parameters::in_parameters;
use super::variables::Variables;
use bspl_types::Expanded;
use clause_core::{ClauseList, Lit, push_clause};
use list_base::{NoMemory, Seq};
use std::alloc::Global;

/// Appends the clauses that make each `in` parameter known before it is sent.
pub(crate) fn push_premises(
    clauses: &mut ClauseList,
    alloc: Global,
    x: &Expanded,
    vars: Variables,
) -> Result<(), NoMemory>
    requires { AreOver x.now vars }
    ensures { OnOk result (AppendsClauses clauses.old clauses.new (premise_clauses x.now vars)) }
{
    for m in 0..x.messages.len() as u32 {
        push_premises_of(clauses, alloc, x, vars, m)?;
    }
    Ok(())
}

/// Appends those of one message.
fn push_premises_of(
    clauses: &mut ClauseList,
    alloc: Global,
    x: &Expanded,
    vars: Variables,
    m: u32,
) -> Result<(), NoMemory>
    requires over { AreOver x.now vars }
    requires known { m < length x.now.messages }
    ensures { let params = in_parameters (message_of x.now m) in OnOk result
        (AppendsClauses clauses.old clauses.new (map (premise_clause x.now vars m) params)) }
{
    let params = in_parameters(alloc, x.message_at(m))?;
    for param in params.as_slice() {
        let lits = premise_clause(alloc, x, vars, m, *param)?;
        push_clause(clauses, alloc, lits.as_slice())?;
    }
    Ok(())
}

/// The literals of the clause of one `in` parameter.
fn premise_clause(
    alloc: Global,
    x: &Expanded,
    vars: Variables,
    m: u32,
    param: u32,
) -> Result<Seq<Lit>, NoMemory>
    requires over { AreOver x.now vars }
    requires known { m < length x.now.messages }
    ensures { IfOk result (λ lits. lits ≡ premise_clause x.now vars m param) }
{
    let carriers = sender_carriers(alloc, x, m, param)?;
    let emission = sent(m);
    let mut lits = Seq::new(alloc);
    lits.push(vars.occurs(emission).negation())?;
    for carrier in carriers.as_slice() {
        lits.push(vars.before(*carrier, emission))?;
    }
    Ok(lits)
}
