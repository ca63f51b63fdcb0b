ghost use Rattle.std.specs.Prelude.{◌≡◌, IfOk};
ghost use Rattle.circuit_clauses.specs.Condition.{condition_of, denied};
ghost use Rattle.circuit_clauses.specs.Condition.{Both as both_met, Either as either_met};

use clause_core::Lit;
use list_base::NoMemory;
use std::alloc::Global;

/// A condition in negation normal form: a tree of conjunctions and disjunctions over literals.
#[derive(Drop)]
pub enum Circuit {
    Literal(Lit),
    Both(Box<Circuit>, Box<Circuit>),
    Either(Box<Circuit>, Box<Circuit>),
    Always,
    Never,
}

/// The conjunction of the two.
pub fn both(alloc: Global, c: Circuit, d: Circuit) -> Result<Circuit, NoMemory>
    ensures { IfOk result (λ made.
        condition_of made ≡ both_met (condition_of c) (condition_of d)) }
{
    Ok(Circuit::Both(Box::new(alloc, c)?, Box::new(alloc, d)?))
}

/// The disjunction of the two.
pub fn either(alloc: Global, c: Circuit, d: Circuit) -> Result<Circuit, NoMemory>
    ensures { IfOk result (λ made.
        condition_of made ≡ either_met (condition_of c) (condition_of d)) }
{
    Ok(Circuit::Either(Box::new(alloc, c)?, Box::new(alloc, d)?))
}

/// The negation, down to the literals (De Morgan).
pub fn denied(alloc: Global, c: Circuit) -> Result<Circuit, NoMemory>
    ensures { IfOk result (λ made. condition_of made ≡ denied (condition_of c)) }
{
    match c {
        Circuit::Literal(lit) => Ok(Circuit::Literal(lit.negation())),
        Circuit::Both(c, d) => either(
            alloc,
            denied(alloc, Box::into_inner(c))?,
            denied(alloc, Box::into_inner(d))?,
        ),
        Circuit::Either(c, d) => both(
            alloc,
            denied(alloc, Box::into_inner(c))?,
            denied(alloc, Box::into_inner(d))?,
        ),
        Circuit::Always => Ok(Circuit::Never),
        Circuit::Never => Ok(Circuit::Always),
    }
}
