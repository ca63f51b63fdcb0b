ghost use Rattle.std.specs.Prelude.{◌↔◌, IsTrue, IfOk, IsErrOf};
ghost use Rattle.clause_core.specs.Clause.{Entails};
ghost use Rattle.clause_core.specs.Resolvent.{CanResolve, IsResolvent};

use super::clause::Clause;
use super::literal::Lit;
use super::merge::merged;
use list_base::NoMemory;
use std::alloc::Global;

/// Why two clauses have no resolvent.
#[derive(Clone, Copy, Debug, PartialEq, Eq)]
pub enum ResolveRefusal {
    /// The first clause lacks the pivot, or the second its negation.
    NoPivot,
    /// Memory ran out.
    NoMemory,
}

impl From<NoMemory> for ResolveRefusal {
    ghost use Rattle.std.specs.Prelude.{◌≡◌};
    ghost use Rattle.clause_core.specs.declared.resolution.ResolveRefusal.TheVariants.{NoMemory};

    ghost from_gives = { λ _ refusal. refusal ≡ NoMemory };

    fn from(_error: NoMemory) -> ResolveRefusal {
        ResolveRefusal::NoMemory
    }
}

/// The first clause without the pivot, together with the second without its negation: the
/// resolvent (Robinson 1965).
pub fn resolve(alloc: Global, c: &Clause, pivot: Lit, d: &Clause) -> Result<Clause, ResolveRefusal>
    ensures ok { IfOk result (IsResolvent c.now pivot d.now) }
    ensures pivot { IsErrOf result ResolveRefusal.NoPivot ↔ ¬ CanResolve c.now pivot d.now }
    ensures sound { IfOk result (Entails c.now d.now) }
{
    if !can_resolve(c, pivot, d) {
        return Err(ResolveRefusal::NoPivot);
    }
    let lits = merged(alloc, c.lits(), pivot, d.lits(), pivot.negation())?;
    Ok(Clause::ascending(lits))
}

/// Whether the pivot is in the first clause and its negation in the second.
fn can_resolve(c: &Clause, pivot: Lit, d: &Clause) -> bool
    ensures { IsTrue result ↔ CanResolve c.now pivot d.now }
{
    c.has(pivot) && d.has(pivot.negation())
}
