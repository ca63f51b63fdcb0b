ghost use Rattle.std.specs.Prelude.{◌≡◌, IfOk, IsTrue, ◌↔◌, Contains};
ghost use Rattle.clause_core.specs.Clause.{IsAscending, HasExactly, VariablesExist};

use super::distinct::{ascend, distinct, sorted};
use super::literal::{Lit, Lits};
use list_base::{NoMemory, Seq, TryClone};
use std::alloc::Global;
use std::marker::Model;

/// A disjunction of literals, each of them once, in ascending order.
#[derive(Drop)]
pub struct Clause {
    lits: Lits,
}

/// Clauses, in order.
pub type ClauseList = Seq<Clause>;

impl Model for Clause {
    ghost use Rattle.std.specs.Prelude.{List};
    ghost use Rattle.clause_core.specs.declared.literal.Lit.{Lit};
    ghost use Rattle.clause_core.specs.Clause.{IsAscending};

    ghost Value = { List Lit };

    ghost view = { λ c. c.lits.items };

    ghost invariant = { λ c. IsAscending c.lits.items };
}

impl Clause {
    /// The clause with exactly these literals, in any order, repeated or not.
    pub fn of(alloc: Global, lits: &[Lit]) -> Result<Clause, NoMemory>
        ensures { IfOk result (λ clause. HasExactly clause lits.now) }
    {
        let sorted = sorted(alloc, lits)?;
        if ascend(sorted.as_slice()) {
            return Ok(Clause { lits: sorted });
        }
        Ok(Clause {
            lits: distinct(alloc, sorted.as_slice())?,
        })
    }

    /// The clause of literals that ascend already.
    pub(crate) fn ascending(lits: Lits) -> Clause
        requires { IsAscending lits.items }
        ensures { result ≡ lits.items }
    {
        Clause { lits }
    }

    /// Lends the literals, in ascending order.
    pub fn lits(&self) -> &[Lit]
        ensures same { result.now ≡ self.now }
        ensures ascending { IsAscending self.now }
    {
        self.lits.as_slice()
    }

    /// Whether the literal is in the clause.
    pub fn has(&self, lit: Lit) -> bool
        ensures { IsTrue result ↔ Contains self.now lit }
    {
        self.lits.as_slice().iter().any(|l| *l == lit)
    }

    /// Whether each variable of the clause is one of those from 1 to `vars`.
    pub fn is_over(&self, vars: u32) -> bool
        ensures { IsTrue result ↔ VariablesExist vars self.now }
    {
        self.lits().iter().all(|l| 0 < l.var && l.var <= vars)
    }
}

impl TryClone for Clause {
    fn try_clone(&self) -> Result<Clause, NoMemory> {
        Ok(Clause {
            lits: self.lits.clone()?,
        })
    }
}
