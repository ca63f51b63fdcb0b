ghost use Rattle.std.specs.Prelude.{OnOk};
ghost use Rattle.clause_encoding.specs.Rest.{rest_clauses};
ghost use Rattle.clause_core.specs.Written.{AppendsClauses};
ghost use Rattle.clause_encoding.specs.inner.Lacking.{AreValuesAndWants};

use super::arrival::push_arrival;
use super::base::kind_count;
use super::clauses::positive_lits;
use super::exhaustion::push_exhaustion;
use super::parameters::public_values;
use super::unbound::push_unbound;
use super::want::push_wants;
use super::wants::{Want, wants_of};
use bspl_types::Expanded;
use clause_core::{ClauseList, push_clause};
use list_base::NoMemory;
use std::alloc::Global;

/// Appends the clauses that the run is quiet and leaves a public parameter unbound.
pub(crate) fn push_rest(
    clauses: &mut ClauseList,
    alloc: Global,
    x: &Expanded,
) -> Result<(), NoMemory>
    ensures { OnOk result (AppendsClauses clauses.old clauses.new (rest_clauses x.now)) }
{
    let values = public_values(alloc, x)?;
    let wants = wants_of(alloc, x)?;
    push_rest_on(clauses, alloc, x, values.as_slice(), wants.as_slice())
}

/// Appends those on these parameters and wants.
fn push_rest_on(
    clauses: &mut ClauseList,
    alloc: Global,
    x: &Expanded,
    values: &[u32],
    wants: &[Want],
) -> Result<(), NoMemory>
    requires { AreValuesAndWants x.now values.now wants.now }
    ensures { OnOk result (AppendsClauses clauses.old clauses.new (rest_clauses x.now)) }
{
    let first_value = kind_count(x) + 1;
    let first_want = first_value + values.len() as u32;
    push_arrival(clauses, alloc, x)?;
    push_exhaustion(clauses, alloc, x, first_want, wants)?;
    push_wants(clauses, alloc, x, first_want, wants)?;
    push_unbound(clauses, alloc, x, first_value, values)?;
    let lits = positive_lits(alloc, first_value, values.len() as u32)?;
    push_clause(clauses, alloc, lits.as_slice())
}
