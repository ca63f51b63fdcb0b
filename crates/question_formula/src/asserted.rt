ghost use Rattle.std.specs.Prelude.{◌≡◌, ◌+◌, ◌≤◌, IfOk, IfSome};
ghost use Rattle.circuit_clauses.specs.Asserted.{asserted_count};
ghost use Rattle.circuit_clauses.specs.Condition.{IsOver, condition_of};
ghost use Rattle.question_formula.specs.inner.Shared.{IsAsserted};

use circuit_clauses::{Circuit, further_variables, push_asserted, variables_are_further};
use clause_core::Formula;
use list_base::{NoMemory, Seq};
use std::alloc::Global;

/// More clauses than these count as memory run out.
const MOST_CLAUSES: usize = 90_000_000;

/// So do more variables.
const MOST_VARIABLES: u32 = 2_000_000_000;

/// The clauses that a condition over so many variables is met, and no more.
pub(crate) fn asserted_formula(alloc: Global, vars: u32, c: &Circuit) -> Result<Formula, NoMemory>
    requires { IsOver vars (condition_of c.now) }
    ensures { IfOk result (IsAsserted vars (condition_of c.now)) }
{
    // law: the clauses have no variables but those of the condition and the further ones
    variables_are_further();
    let Some(all) = variables_with(vars, c) else {
        return Err(NoMemory);
    };
    let mut clauses = Seq::new(alloc);
    push_asserted(&mut clauses, alloc, vars + 1, &[], c)?;
    if clauses.len() > MOST_CLAUSES {
        return Err(NoMemory);
    }
    Ok(Formula { vars: all, clauses })
}

/// How many variables there are with the further ones of the condition, if they are not too many.
fn variables_with(vars: u32, c: &Circuit) -> Option<u32>
    ensures are { IfSome result (λ count. count ≡ vars + asserted_count (condition_of c.now)) }
    ensures few { IfSome result (λ count. count ≤ 2000000000) }
{
    let count = vars.checked_add(further_variables(c)?)?;
    if count <= MOST_VARIABLES {
        Some(count)
    } else {
        None
    }
}
