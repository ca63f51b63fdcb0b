ghost use Rattle.std.specs.Prelude.{◌≡◌, ◌++◌, ◌∷◌, [], List, OnOk};
ghost use Rattle.dimacs.specs.declared.token.Token.{Token};
ghost use Rattle.dimacs.specs.inner.Reading.{AreClauses};

use super::token::Token;
use clause_core::{Clause, ClauseList, Lit};
use list_base::{NoMemory, Seq};
use std::alloc::Global;

/// The clauses that were read, and the literals of the next one, whose end was not read.
#[derive(Drop)]
pub struct Reading {
    pub clauses: ClauseList,
    pub pending: Vec<Lit>,
}

impl Reading {
    /// Nothing was read.
    pub fn new(alloc: Global) -> Reading
        ensures { (result.clauses ≡ []) × (result.pending.items ≡ []) }
    {
        Reading {
            clauses: Seq::new(alloc),
            pending: Vec::new(alloc),
        }
    }

    /// Takes the next token.
    pub fn take(&mut self, alloc: Global, token: Token) -> Result<(), NoMemory>
        ensures { OnOk result ((tokens : List Token) →
            AreClauses tokens self.old.clauses self.old.pending.items →
            AreClauses (tokens ++ token ∷ []) self.new.clauses self.new.pending.items) }
    {
        match token {
            Token::Literal(lit) => self.pending.push(lit)?,
            Token::End => {
                let clause = Clause::of(alloc, self.pending.as_slice())?;
                self.clauses.push(clause)?;
                self.pending.clear();
            }
        }
        Ok(())
    }
}
