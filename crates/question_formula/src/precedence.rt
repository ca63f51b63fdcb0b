ghost use Rattle.std.specs.Prelude.{◌≡◌, ◌==◌, All, IfOk, false};
ghost use Rattle.std.specs.List.{list_any};
ghost use Rattle.circuit_clauses.specs.Condition.{condition_of};
ghost use Rattle.clause_encoding.specs.Variables.{IsKind, IsSmall};
ghost use Rattle.question_formula.specs.Conditions.{occurs_before, some_before, some_occurs};

use super::joined::{all_of, some_of};
use circuit_clauses::Circuit;
use clause_core::positive;
use clause_encoding::Variables;
use list_base::{NoMemory, Seq};
use std::alloc::Global;

/// That one of the kinds occurs.
pub(crate) fn some_occurs(alloc: Global, kinds: &[u32]) -> Result<Circuit, NoMemory>
    ensures { IfOk result (λ made. condition_of made ≡ some_occurs kinds.now) }
{
    let mut circuits = Seq::new(alloc);
    for kind in kinds {
        circuits.push(Circuit::Literal(positive(*kind)))?;
    }
    some_of(alloc, circuits)
}

/// That one of the kinds occurs, and first does so before each of the others. A kind that is among
/// the others does not come before itself.
pub(crate) fn some_before(
    alloc: Global,
    vars: Variables,
    kinds: &[u32],
    others: &[u32],
) -> Result<Circuit, NoMemory>
    requires small { IsSmall vars }
    requires kinds { All (IsKind vars) kinds.now }
    requires others { All (IsKind vars) others.now }
    ensures { IfOk result (λ made. condition_of made ≡ some_before vars kinds.now others.now) }
{
    let mut circuits = Seq::new(alloc);
    for kind in kinds {
        if !is_among(others, *kind) {
            circuits.push(occurs_before(alloc, vars, others, *kind)?)?;
        }
    }
    some_of(alloc, circuits)
}

/// Whether the kind is among the others.
pub(crate) fn is_among(others: &[u32], kind: u32) -> bool
    ensures { result ≡ list_any (λ other. other == kind) others.now }
{
    others.iter().any(|other| *other == kind)
}

/// That the kind occurs, and first does so before each of the others.
fn occurs_before(
    alloc: Global,
    vars: Variables,
    others: &[u32],
    kind: u32,
) -> Result<Circuit, NoMemory>
    requires small { IsSmall vars }
    requires kind { IsKind vars kind }
    requires others { All (IsKind vars) others.now }
    requires apart { list_any (λ other. other == kind) others.now ≡ false }
    ensures { IfOk result (λ made. condition_of made ≡ occurs_before vars others.now kind) }
{
    let mut circuits = Seq::new(alloc);
    circuits.push(Circuit::Literal(positive(kind)))?;
    for other in others {
        circuits.push(Circuit::Literal(vars.before(kind, *other)))?;
    }
    all_of(alloc, circuits)
}
