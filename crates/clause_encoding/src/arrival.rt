ghost use Rattle.std.specs.Prelude.{OnOk};
ghost use Rattle.clause_encoding.specs.Rest.{arrival_clauses};
ghost use Rattle.clause_core.specs.Written.{AppendsClauses};

use super::kinds::{received, sent};
use bspl_types::Expanded;
use clause_core::{ClauseList, positive, push_clause};
use list_base::NoMemory;
use std::alloc::Global;

/// Appends the clauses that make what is sent received.
pub(crate) fn push_arrival(
    clauses: &mut ClauseList,
    alloc: Global,
    x: &Expanded,
) -> Result<(), NoMemory>
    ensures { OnOk result (AppendsClauses clauses.old clauses.new (arrival_clauses x.now)) }
{
    for m in 0..x.messages.len() as u32 {
        let lits = [positive(sent(m)).negation(), positive(received(m))];
        push_clause(clauses, alloc, &lits)?;
    }
    Ok(())
}
