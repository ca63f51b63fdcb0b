ghost use Rattle.std.specs.Prelude.{◌≡◌, ◌+◌, ◌^◌, ◌<◌, [], ◌∷◌, map, IfOk, OnOk};
ghost use Rattle.std.specs.List.{range_with_len};
ghost use Rattle.clause_core.specs.Written.{AppendsClauses};
ghost use Rattle.clause_core.specs.Literal.{positive};
ghost use Rattle.clause_encoding.specs.inner.Lacking.{absence_clause};

use clause_core::{ClauseList, Lit, positive, push_clause};
use list_base::{NoMemory, Seq};
use std::alloc::Global;

/// Appends the clause that the kind does not occur if the variable is true.
pub(crate) fn push_absence(
    clauses: &mut ClauseList,
    alloc: Global,
    var: u32,
    kind: u32,
) -> Result<(), NoMemory>
    ensures { OnOk result (AppendsClauses clauses.old clauses.new (absence_clause var kind ∷ [])) }
{
    let lits = [positive(var).negation(), positive(kind).negation()];
    push_clause(clauses, alloc, &lits)
}

/// The literals that are true if the variables are, of so many variables from the first on.
pub(crate) fn positive_lits(alloc: Global, first: u32, count: u32) -> Result<Seq<Lit>, NoMemory>
    requires { first + count < 2 ^ 32 }
    ensures { IfOk result (λ lits. lits ≡ map positive (range_with_len first count)) }
{
    let mut lits = Seq::new(alloc);
    for var in first..first + count {
        lits.push(positive(var))?;
    }
    Ok(lits)
}
