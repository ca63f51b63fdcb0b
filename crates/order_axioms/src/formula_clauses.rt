ghost use Rattle.std.specs.Prelude.{◌≡◌, ◌↔◌, [], length, slice_get, Contains, IsTrue, IfOk};
ghost use Rattle.order_axioms.specs.Formula.{whole};

use super::lent_clause::LentClause;
use super::order::Order;
use super::order_numbers::OrderNumbers;
use super::ordered_formula::OrderedFormula;
use clause_core::{Clause, Formula};
use list_base::NoMemory;
use std::alloc::Global;
use std::marker::Model;

/// The clauses of a formula, which are lent one by one: those of an order, and then those that are
/// stored.
#[derive(Drop)]
pub struct FormulaClauses<'f> {
    numbers: OrderNumbers,
    stored: &'f [Clause],
}

impl<'f> Model for FormulaClauses<'f> {
    ghost use Rattle.std.specs.Prelude.{List, ◌++◌};
    ghost use Rattle.clause_core.specs.declared.literal.Lit.{Lit};
    ghost use Rattle.order_axioms.specs.Order.{order_list};

    ghost Value = { List (List Lit) };

    ghost view = { λ f. order_list f.numbers.order ++ f.stored.now };
}

impl<'f> FormulaClauses<'f> {
    /// The clauses of a formula, all of which are stored.
    pub fn plain(alloc: Global, f: &'f Formula) -> Result<FormulaClauses<'f>, NoMemory>
        ensures { IfOk result (λ clauses. clauses ≡ f.now.clauses) }
    {
        Ok(FormulaClauses {
            numbers: OrderNumbers::new(alloc, Order::none())?,
            stored: f.clauses.as_slice(),
        })
    }

    /// The clauses of a formula with an order.
    pub fn ordered(alloc: Global, f: &'f OrderedFormula) -> Result<FormulaClauses<'f>, NoMemory>
        ensures { IfOk result (λ clauses. clauses ≡ (whole f.now).clauses) }
    {
        Ok(FormulaClauses {
            numbers: OrderNumbers::new(alloc, f.order)?,
            stored: f.stored.clauses.as_slice(),
        })
    }

    /// How many clauses there are.
    pub fn len(&self) -> usize
        ensures { result ≡ length self.now }
    {
        self.numbers.count() as usize + self.stored.len()
    }

    /// Lends the clause at the index.
    pub fn get(&self, index: usize) -> Option<LentClause<'_>>
        ensures { result ≡ slice_get self.now index }
    {
        let first = self.numbers.count() as usize;
        if index < first {
            return Some(LentClause::made(self.numbers.clause(index as u32 + 1)));
        }
        self.stored.get(index - first).map(LentClause::stored)
    }

    /// Whether a clause is empty. None of the order is.
    pub fn has_empty(&self) -> bool
        ensures { IsTrue result ↔ Contains self.now [] }
    {
        any_empty(self.stored)
    }
}

/// Whether one of the clauses is empty.
pub fn any_empty(clauses: &[Clause]) -> bool
    ensures { IsTrue result ↔ Contains clauses.now [] }
{
    clauses.iter().any(|clause| clause.lits().is_empty())
}
