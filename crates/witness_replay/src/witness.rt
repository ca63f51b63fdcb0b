ghost use Rattle.std.specs.Prelude.{◌≡◌, ◌≤◌, length, take, IfOk};
ghost use Rattle.clause_core.specs.Assignment.{valuation};
ghost use Rattle.clause_core.specs.Clause.{SatisfiesAll};
ghost use Rattle.clause_encoding.specs.Formula.{clauses_of, liveness_clauses, liveness_variables};
ghost use Rattle.clause_encoding.specs.Formula.{safety_clauses, safety_variables, variables_of};
ghost use Rattle.clause_encoding.specs.Variables.{variable_count};
ghost use Rattle.bspl_types.specs.History.{IsRun};
ghost use Rattle.bspl_types.specs.declared.property.Property.TheVariants.{Liveness, Safety};
ghost use Rattle.enactment_model.specs.Property.{HasConflict, Violates};
ghost use Rattle.witness_replay.specs.Refuting.{IsCut, IsCutAtConflict, IsCounterexample};

use super::replay::order_run;
use bspl_types::{Admitted, Event, Expanded, Property, Run};
use clause_core::Assignment;
use clause_encoding::variables_of;
use enactment_model::{
    known_exactly_if_some_event_binds, prefix_is_legal, producers, violated_does_not_hold,
};
use list_base::{NoMemory, Seq};
use std::alloc::Global;

/// The run of an assignment that satisfies the clauses of the property, cut where it refutes the
/// property (after Singh 2012).
pub fn witness_of(
    alloc: Global,
    property: Property,
    a: &Admitted,
    s: &Assignment,
) -> Result<Run, NoMemory>
    requires all { variable_count (variables_of property a.now) ≤ length s.now }
    requires satisfied { SatisfiesAll (valuation s.now) (clauses_of property a.now) }
    ensures { IfOk result (IsCounterexample property a.now (valuation s.now)) }
{
    // law: the first events of a legal run are legal
    prefix_is_legal();
    // law: what is known was bound by an event before
    known_exactly_if_some_event_binds();
    // law: a legal run that does what a property excludes
    violated_does_not_hold();
    let vars = variables_of(alloc, property, a)?;
    let whole = order_run(alloc, a, vars, s)?;
    cut_run(alloc, property, a.expanded(), whole)
}

/// The run of an assignment that satisfies the safety clauses, cut after its first conflict.
pub fn run_of(alloc: Global, a: &Admitted, s: &Assignment) -> Result<Run, NoMemory>
    requires all { variable_count (safety_variables a.now) ≤ length s.now }
    requires satisfied { SatisfiesAll (valuation s.now) (safety_clauses a.now) }
    ensures { IfOk result (IsCounterexample Safety a.now (valuation s.now)) }
{
    witness_of(alloc, Property::Safety, a, s)
}

/// The run of an assignment that satisfies the liveness clauses: it is quiet with a public
/// parameter unbound.
pub fn resting_run_of(alloc: Global, a: &Admitted, s: &Assignment) -> Result<Run, NoMemory>
    requires all { variable_count (liveness_variables a.now) ≤ length s.now }
    requires satisfied { SatisfiesAll (valuation s.now) (liveness_clauses a.now) }
    ensures { IfOk result (IsCounterexample Liveness a.now (valuation s.now)) }
{
    witness_of(alloc, Property::Liveness, a, s)
}

/// The run, cut where it refutes the property.
fn cut_run(alloc: Global, property: Property, x: &Expanded, whole: Run) -> Result<Run, NoMemory>
    requires fits { IsRun x.now whole }
    requires violates { Violates property x.now whole }
    ensures { IfOk result (IsCut property x.now whole) }
{
    match property {
        Property::Safety => cut_at_conflict(alloc, x, whole.as_slice()),
        Property::Liveness => Ok(whole),
    }
}

/// The run's events up to the second producer of its first conflict.
fn cut_at_conflict(alloc: Global, x: &Expanded, run: &[Event]) -> Result<Run, NoMemory>
    requires fits { IsRun x.now run.now }
    requires conflict { HasConflict x.now run.now }
    ensures { IfOk result (IsCutAtConflict x.now run.now) }
{
    let conflict = producers(x, run).unwrap();
    first_events(alloc, run, conflict.second)
}

/// The run's first events, as many as the count says.
pub fn first_events(alloc: Global, run: &[Event], count: usize) -> Result<Run, NoMemory>
    requires { count ≤ length run.now }
    ensures { IfOk result (λ first. first ≡ take count run.now) }
{
    Seq::from_slice(alloc, &run[..count])
}
