ghost use Rattle.std.specs.Prelude.{◌≡◌, IfOk, map};
ghost use Rattle.circuit_clauses.specs.Condition.{condition_of};
ghost use Rattle.question_formula.specs.Conditions.{all_of, some_of};

use circuit_clauses::{Circuit, both, either};
use list_base::{NoMemory, Seq};
use std::alloc::Global;

/// The conjunction of the circuits, nested to the right.
pub(crate) fn all_of(alloc: Global, mut circuits: Seq<Circuit>) -> Result<Circuit, NoMemory>
    ensures { IfOk result (λ made. condition_of made ≡ all_of (map condition_of circuits)) }
{
    let Some(mut made) = circuits.pop() else {
        return Ok(Circuit::Always);
    };
    'earlier: while let Some(circuit) = circuits.pop() {
        made = both(alloc, circuit, made)?;
    }
    Ok(made)
}

/// Their disjunction, nested to the right.
pub(crate) fn some_of(alloc: Global, mut circuits: Seq<Circuit>) -> Result<Circuit, NoMemory>
    ensures { IfOk result (λ made. condition_of made ≡ some_of (map condition_of circuits)) }
{
    let Some(mut made) = circuits.pop() else {
        return Ok(Circuit::Never);
    };
    'earlier: while let Some(circuit) = circuits.pop() {
        made = either(alloc, circuit, made)?;
    }
    Ok(made)
}
