ghost use Rattle.std.specs.Prelude.{◌<◌, length, OnOk};
ghost use Rattle.clause_encoding.specs.Rest.{unbound_clauses, unbound_clauses_of};
ghost use Rattle.clause_core.specs.Written.{AppendsClauses};
ghost use Rattle.clause_encoding.specs.inner.Lacking.{AreValues, unbound_by};

use super::clauses::push_absence;
use super::kinds::sent;
use super::parameters::binds;
use bspl_types::Expanded;
use clause_core::ClauseList;
use list_base::NoMemory;
use std::alloc::Global;

/// Appends the clauses that no message binds what is unbound. The variable of the first parameter
/// is `first`.
pub(crate) fn push_unbound(
    clauses: &mut ClauseList,
    alloc: Global,
    x: &Expanded,
    first: u32,
    values: &[u32],
) -> Result<(), NoMemory>
    requires { AreValues x.now first values.now }
    ensures { OnOk result (AppendsClauses clauses.old clauses.new (unbound_clauses x.now)) }
{
    for (n, param) in values.iter().enumerate() {
        push_unbound_of(clauses, alloc, x, first + n as u32, *param)?;
    }
    Ok(())
}

/// Appends those of one parameter.
fn push_unbound_of(
    clauses: &mut ClauseList,
    alloc: Global,
    x: &Expanded,
    unbound: u32,
    param: u32,
) -> Result<(), NoMemory>
    ensures { OnOk result
        (AppendsClauses clauses.old clauses.new (unbound_clauses_of x.now (unbound, param))) }
{
    for m in 0..x.messages.len() as u32 {
        push_unbound_by(clauses, alloc, x, unbound, param, m)?;
    }
    Ok(())
}

/// Appends that of one message, if it adorns the parameter `in` or `out`.
fn push_unbound_by(
    clauses: &mut ClauseList,
    alloc: Global,
    x: &Expanded,
    unbound: u32,
    param: u32,
    m: u32,
) -> Result<(), NoMemory>
    requires { m < length x.now.messages }
    ensures { OnOk result
        (AppendsClauses clauses.old clauses.new (unbound_by x.now unbound param m)) }
{
    if !binds(x.message_at(m), param) {
        return Ok(());
    }
    push_absence(clauses, alloc, unbound, sent(m))
}
