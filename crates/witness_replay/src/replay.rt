ghost use Rattle.std.specs.Prelude.{◌≤◌, ◌<◌, length, IfOk};
ghost use Rattle.clause_core.specs.Assignment.{valuation};
ghost use Rattle.clause_core.specs.Clause.{SatisfiesAll};
ghost use Rattle.clause_encoding.specs.Families.{shared_clauses};
ghost use Rattle.clause_encoding.specs.Variables.{IsSmall, variable_count};
ghost use Rattle.enactment_model.specs.Legal.{IsLegalRun};
ghost use Rattle.first_occurrences.specs.Report.{AreVariablesOf};
ghost use Rattle.witness_replay.specs.Witness.{AreOrdered, IsRunOfAssignment, IsRunOfKinds};

use super::events::event_after;
use super::order::ordered_kinds;
use bspl_types::{Admitted, Expanded, Run};
use clause_core::Assignment;
use clause_encoding::Variables;
use enactment_model::{known_exactly_if_some_event_binds, legal_by_positions};
use list_base::{NoMemory, Seq};
use std::alloc::Global;

/// The run of the assignment under the key of all ones: one event for each kind that occurs, in the
/// order of the order variables. Such a run is legal.
pub fn order_run(
    alloc: Global,
    a: &Admitted,
    vars: Variables,
    s: &Assignment,
) -> Result<Run, NoMemory>
    requires are_variables { AreVariablesOf a.now vars }
    requires small { IsSmall vars }
    requires all { variable_count vars ≤ length s.now }
    requires satisfied { SatisfiesAll (valuation s.now) (shared_clauses a.now vars) }
    ensures run { IfOk result (IsRunOfAssignment a.now vars (valuation s.now)) }
    ensures legal { IfOk result (IsLegalRun a.now) }
{
    // law: each event of a legal run may follow those before it
    legal_by_positions();
    // law: what is known was bound by an event before
    known_exactly_if_some_event_binds();
    let kinds = ordered_kinds(alloc, vars, s)?;
    run_of_kinds(alloc, a.expanded(), vars, s, kinds.as_slice())
}

/// The run of the kinds, which are those that occur, in their order.
fn run_of_kinds(
    alloc: Global,
    x: &Expanded,
    vars: Variables,
    s: &Assignment,
    kinds: &[u32],
) -> Result<Run, NoMemory>
    requires some_key { 0 < length x.now.keys }
    requires are_variables { AreVariablesOf x.now vars }
    requires satisfied { SatisfiesAll (valuation s.now) (shared_clauses x.now vars) }
    requires ordered { AreOrdered vars (valuation s.now) kinds.now }
    ensures { IfOk result (IsRunOfKinds x.now kinds.now) }
{
    // law: what is known was bound by an event before
    known_exactly_if_some_event_binds();
    let mut run = Seq::new(alloc);
    for kind in kinds {
        run.push(event_after(alloc, x, run.as_slice(), *kind)?)?;
    }
    Ok(run)
}
