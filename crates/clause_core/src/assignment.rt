ghost use Rattle.std.specs.Prelude.{◌≡◌, ◌^◌, ◌<◌, ◌≤◌, ◌↔◌, IsTrue, IfOk, length};
ghost use Rattle.clause_core.specs.Assignment.{valuation};
ghost use Rattle.clause_core.specs.Clause.{Satisfies, VariablesExist};

use super::clause::Clause;
use list_base::{NoMemory, Seq};
use std::alloc::Global;
use std::marker::Model;

/// A truth value for each of the variables from 1 to their number.
#[derive(Drop)]
pub struct Assignment {
    values: Seq<bool>,
}

impl Model for Assignment {
    ghost use Rattle.std.specs.Prelude.{List, Bool, length, ◌<◌, ◌^◌};

    ghost Value = { List Bool };

    ghost view = { λ a. a.values };

    ghost invariant = { λ a. length a.values < 2 ^ 32 };
}

impl Assignment {
    /// Variable `v` gets the value at index `v - 1`.
    pub fn of(alloc: Global, values: &[bool]) -> Result<Assignment, NoMemory>
        requires { length values.now < 2 ^ 32 }
        ensures { IfOk result (λ assignment. assignment ≡ values.now) }
    {
        Ok(Assignment {
            values: Seq::from_slice(alloc, values)?,
        })
    }

    /// How many variables have a value.
    pub fn vars(&self) -> u32
        ensures { result ≡ length self.now }
    {
        self.values.len() as u32
    }

    /// The value of the variable, which is one of those from 1 to `vars`.
    pub fn value(&self, var: u32) -> bool
        requires from_one { 0 < var }
        requires exists { var ≤ length self.now }
        ensures { result ≡ valuation self.now var }
    {
        *self.values.at(var as usize - 1)
    }

    /// Whether a literal of the clause is true under the assignment.
    pub fn satisfies(&self, c: &Clause) -> bool
        requires { VariablesExist (length self.now) c.now }
        ensures { IsTrue result ↔ Satisfies (valuation self.now) c.now }
    {
        c.lits()
            .iter()
            .any(|lit| self.value(lit.var) == lit.positive)
    }
}
