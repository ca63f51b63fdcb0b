ghost use Rattle.std.specs.Prelude.{◌≡◌, ◌↔◌, IsTrue, IfOk, Contains};
ghost use Rattle.clause_core.specs.Clause.{IsAscending};

use clause_core::{Clause, Lit};
use std::marker::Model;

/// A clause that is stored, or one of three literals that was made because it was asked for.
#[derive(Drop)]
pub struct LentClause<'a> {
    source: ClauseSource<'a>,
}

/// Where the literals of a clause are.
#[derive(Drop)]
pub(crate) enum ClauseSource<'a> {
    /// In a clause that is stored.
    Stored(&'a Clause),
    /// Here.
    Made([Lit; 3]),
}

impl<'a> Model for LentClause<'a> {
    ghost use Rattle.std.specs.Prelude.{List};
    ghost use Rattle.clause_core.specs.declared.literal.Lit.{Lit};
    ghost use Rattle.clause_core.specs.Clause.{IsAscending};

    ghost Value = { List Lit };

    ghost use Rattle.order_axioms.specs.inner.Source.{source_lits};

    ghost view = { λ c. source_lits c.source };

    ghost invariant = { λ c. IsAscending (source_lits c.source) };
}

impl<'a> LentClause<'a> {
    /// The clause that is stored.
    pub fn stored(clause: &'a Clause) -> LentClause<'a>
        ensures { result ≡ clause.now }
    {
        let _ascending = clause.lits();
        LentClause {
            source: ClauseSource::Stored(clause),
        }
    }

    /// The clause of these literals, which ascend.
    pub fn made(lits: [Lit; 3]) -> LentClause<'a>
        requires { IsAscending lits }
        ensures { result ≡ lits }
    {
        LentClause {
            source: ClauseSource::Made(lits),
        }
    }

    /// Lends the literals, in ascending order.
    pub fn lits(&self) -> &[Lit]
        ensures same { result.now ≡ self.now }
        ensures ascending { IsAscending self.now }
    {
        match &self.source {
            ClauseSource::Stored(clause) => clause.lits(),
            ClauseSource::Made(lits) => lits,
        }
    }

    /// Whether the literal is in the clause.
    pub fn has(&self, lit: Lit) -> bool
        ensures { IsTrue result ↔ Contains self.now lit }
    {
        self.lits().iter().any(|l| *l == lit)
    }
}
