ghost use Rattle.witness_replay.specs.Laws.{ModelDoesNotHold, ModelRefutes, ModelShows};
ghost use Rattle.witness_replay.specs.Laws.{RunEmitsOnce, RunIsUnderOnes, RunOfModelIsLegal};
ghost use Rattle.witness_replay.specs.Laws.{SharedModelHasRun};

use enactment_model::{
    known_exactly_if_some_event_binds, legal_by_positions, shortest_conflict,
    violated_does_not_hold,
};
use first_occurrences::occurs_exactly_if_some_event;

/// An assignment that satisfies the clauses that all formulas share gives a legal run, all of it
/// under the key of ones; each run that it gives is legal.
pub fn shared_model_has_run()
    ensures run { SharedModelHasRun }
    ensures legal { RunOfModelIsLegal }
    ensures ones { RunIsUnderOnes }
{
    // law: a run is legal if each event may follow those before it
    legal_by_positions();
    // law: what is known was bound by an event before
    known_exactly_if_some_event_binds();
}

/// An assignment that satisfies the clauses that all formulas share shows each run that it gives.
pub fn model_shows()
    ensures { ModelShows }
{
    // law: a kind occurs if an event is of it, and first at its first position
    occurs_exactly_if_some_event();
}

/// The run of an assignment emits each message once at most.
pub fn run_emits_once()
    ensures { RunEmitsOnce }
{}

/// An assignment that satisfies the clauses of a property of an admitted protocol gives a legal run
/// that refutes it, so the protocol does not have the property (after Singh 2012).
pub fn model_refutes()
    ensures refuted { ModelRefutes }
    ensures fails { ModelDoesNotHold }
{
    // law: a run is legal if each event may follow those before it
    legal_by_positions();
    // law: what is known was bound by an event before
    known_exactly_if_some_event_binds();
    // law: a conflict has a shortest prefix
    shortest_conflict();
    // law: a legal run that does what a property excludes
    violated_does_not_hold();
}
