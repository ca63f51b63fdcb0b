ghost use Rattle.std.specs.Prelude.{◌≡◌, ◌<◌, IfOk, length};
ghost use Rattle.clause_core.specs.Assignment.{valuation};
ghost use Rattle.clause_core.specs.Propagation.{IsPropagated};
ghost use Rattle.sat_trail.specs.Entry.{values_of};
ghost use Rattle.sat_trail.specs.State.{numbering_of};
ghost use Rattle.sat_solver.specs.inner.Choice.{AllSet, SatisfiesNumbered};

use clause_core::Assignment;
use list_base::{NoMemory, Seq};
use order_propagator::OrderTrail;
use std::alloc::Global;

/// The assignment that a trail gives if all variables are set and no clause is false.
pub fn model(alloc: Global, trail: &OrderTrail) -> Result<Assignment, NoMemory>
    requires propagated { IsPropagated (values_of trail.now.entries) (numbering_of trail.now) }
    requires all_set { AllSet trail.now }
    ensures whole { IfOk result (λ assignment. length assignment ≡ trail.now.vars) }
    ensures satisfies { IfOk result (λ assignment.
        SatisfiesNumbered (valuation assignment) (numbering_of trail.now)) }
{
    // law: what every trail keeps
    trail.is_trail();
    let mut values: Seq<bool> = Seq::new(alloc);
    for index in 0..trail.vars() {
        values.push(trail.value(index + 1).unwrap_or(false))?;
    }
    let assignment = Assignment::of(alloc, values.as_slice())?;
    Ok(assignment)
}
