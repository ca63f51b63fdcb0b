ghost use Rattle.std.specs.Prelude.{OnOk};
ghost use Rattle.clause_encoding.specs.Families.{delivery_clauses};
ghost use Rattle.clause_core.specs.Written.{AppendsClauses};
ghost use Rattle.clause_encoding.specs.inner.Kinds.{AreOver};

use super::kinds::{received, sent};
use super::variables::Variables;
use bspl_types::Expanded;
use clause_core::{ClauseList, push_clause};
use list_base::NoMemory;
use std::alloc::Global;

/// Appends the clauses that make what is received sent before.
pub(crate) fn push_delivery(
    clauses: &mut ClauseList,
    alloc: Global,
    x: &Expanded,
    vars: Variables,
) -> Result<(), NoMemory>
    requires { AreOver x.now vars }
    ensures { OnOk result (AppendsClauses clauses.old clauses.new (delivery_clauses x.now vars)) }
{
    for m in 0..x.messages.len() as u32 {
        let lits = [
            vars.occurs(received(m)).negation(),
            vars.before(sent(m), received(m)),
        ];
        push_clause(clauses, alloc, &lits)?;
    }
    Ok(())
}
