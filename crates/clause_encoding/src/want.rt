ghost use Rattle.std.specs.Prelude.{◌<◌, length, OnOk};
ghost use Rattle.clause_encoding.specs.Rest.{want_clauses, want_clauses_of};
ghost use Rattle.clause_core.specs.Written.{AppendsClauses};
ghost use Rattle.clause_encoding.specs.inner.Lacking.{AreWants};

use super::carrier_kinds::sender_carriers;
use super::clauses::push_absence;
use super::wants::Want;
use bspl_types::Expanded;
use clause_core::ClauseList;
use list_base::NoMemory;
use std::alloc::Global;

/// Appends the clauses that nothing makes known what a sender lacks. The variable of the first want
/// is `first`.
pub(crate) fn push_wants(
    clauses: &mut ClauseList,
    alloc: Global,
    x: &Expanded,
    first: u32,
    wants: &[Want],
) -> Result<(), NoMemory>
    requires { AreWants x.now first wants.now }
    ensures { OnOk result (AppendsClauses clauses.old clauses.new (want_clauses x.now)) }
{
    for (n, want) in wants.iter().enumerate() {
        push_want(clauses, alloc, x, first + n as u32, *want)?;
    }
    Ok(())
}

/// Appends those of one parameter that a sender may lack.
fn push_want(
    clauses: &mut ClauseList,
    alloc: Global,
    x: &Expanded,
    lacks: u32,
    want: Want,
) -> Result<(), NoMemory>
    requires { want.message < length x.now.messages }
    ensures { OnOk result (AppendsClauses clauses.old clauses.new (want_clauses_of x.now (lacks, want))) }
{
    let carriers = sender_carriers(alloc, x, want.message, want.param)?;
    for carrier in carriers.as_slice() {
        push_absence(clauses, alloc, lacks, *carrier)?;
    }
    Ok(())
}
