ghost use Rattle.std.specs.Prelude.{OnOk};
ghost use Rattle.clause_encoding.specs.inner.Order.{families_after_order};
ghost use Rattle.clause_core.specs.Written.{AppendsClauses};
ghost use Rattle.clause_encoding.specs.inner.Kinds.{AreOver};

use super::delivery::push_delivery;
use super::freshness::push_freshness;
use super::occurrence::push_occurrence;
use super::premises::push_premises;
use super::variables::Variables;
use bspl_types::Expanded;
use clause_core::ClauseList;
use list_base::NoMemory;
use std::alloc::Global;

/// Appends the families of every formula that come after the order clauses.
pub(crate) fn push_families(
    clauses: &mut ClauseList,
    alloc: Global,
    x: &Expanded,
    vars: Variables,
) -> Result<(), NoMemory>
    requires { AreOver x.now vars }
    ensures { OnOk result (AppendsClauses clauses.old clauses.new (families_after_order x.now vars)) }
{
    push_occurrence(clauses, alloc, vars)?;
    push_delivery(clauses, alloc, x, vars)?;
    push_premises(clauses, alloc, x, vars)?;
    push_freshness(clauses, alloc, x, vars)
}
