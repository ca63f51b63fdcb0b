ghost use Rattle.first_occurrences.specs.Laws.{AssignmentExists, BoundExactlyIfSent, DeliveryHolds};
ghost use Rattle.first_occurrences.specs.Laws.{FreshnessHolds, OccurrenceHolds, OrderHolds};
ghost use Rattle.first_occurrences.specs.Laws.{PremisesHold, RestHolds, RivalsHold};
ghost use Rattle.first_occurrences.specs.Laws.{SharedClausesHold, ViolationHasModel};
ghost use Rattle.first_occurrences.specs.Shown.{KnownExactlyIfCarried, OccursExactlyIfSomeEvent};
ghost use Rattle.first_occurrences.specs.Shown.{OccursExactlyIfWithin, ReportsShow};
ghost use Rattle.first_occurrences.specs.Headline.{UnsatisfiableHolds};

use bspl_types::equal_values_are_one;
use clause_encoding::written_is_satisfied;
use enactment_model::{
    known_exactly_if_some_event_binds, legal_by_positions, no_conflict_agrees,
    second_emission_is_not_enabled,
};

/// Each run has an assignment of its first occurrences under a key, with any values of the
/// variables between.
pub fn assignment_exists()
    ensures { AssignmentExists }
{}

/// First positions order the kinds.
pub fn order_holds()
    ensures { OrderHolds }
{}

/// A kind that occurs comes before one that does not.
pub fn occurrence_holds()
    ensures { OccurrenceHolds }
{}

/// In a legal run what is received was sent before.
pub fn delivery_holds()
    ensures { DeliveryHolds }
{
    // law: each event of a legal run may follow those before it
    legal_by_positions();
}

/// In a legal run each `in` parameter of what is sent was known to the sender before.
pub fn premises_hold()
    ensures { PremisesHold }
{
    // law: lists of values that the test finds equal are one list
    equal_values_are_one();
    // law: each event of a legal run may follow those before it
    legal_by_positions();
    // law: what is known was bound by an event before
    known_exactly_if_some_event_binds();
}

/// In a legal run no `out` or `nil` parameter of what is sent was known to the sender before.
pub fn freshness_holds()
    ensures { FreshnessHolds }
{
    // law: lists of values that the test finds equal are one list
    equal_values_are_one();
    // law: each event of a legal run may follow those before it
    legal_by_positions();
    // law: what an event binds is known after it
    known_exactly_if_some_event_binds();
}

/// The first occurrences of a legal run satisfy the families that all formulas share.
pub fn shared_clauses_hold()
    ensures { SharedClausesHold }
{
    // laws: each family holds
    order_holds();
    occurrence_holds();
    delivery_holds();
    premises_hold();
    freshness_holds();
}

/// A legal run with a conflict sends two rivals, so it satisfies the clauses of rival producers.
pub fn rivals_hold()
    ensures { RivalsHold }
{
    // law: lists of values that the test finds equal are one list
    equal_values_are_one();
    // law: each event of a legal run may follow those before it
    legal_by_positions();
    // law: one message does not produce twice under a key
    second_emission_is_not_enabled();
}

/// In a legal run a parameter is bound exactly if some message that adorns it `in` or `out` is
/// sent: what is received was sent.
pub fn bound_exactly_if_sent()
    ensures { BoundExactlyIfSent }
{
    // law: lists of values that the test finds equal are one list
    equal_values_are_one();
    // law: each event of a legal run may follow those before it
    legal_by_positions();
    // law: what is known was bound by an event before
    known_exactly_if_some_event_binds();
}

/// In a legal run a role knows a parameter exactly if some kind occurs that makes it known there.
pub fn known_exactly_if_carried()
    ensures { KnownExactlyIfCarried }
{
    // law: lists of values that the test finds equal are one list
    equal_values_are_one();
    // law: what is known was bound by an event before
    known_exactly_if_some_event_binds();
}

/// A kind occurs exactly if an event of the run is of the kind, and it does so among the first
/// events exactly if its first position is one of theirs.
pub fn occurs_exactly_if_some_event()
    ensures event { OccursExactlyIfSomeEvent }
    ensures within { OccursExactlyIfWithin }
{
    // law: lists of values that the test finds equal are one list
    equal_values_are_one();
}

/// An assignment that reports the first occurrences of a run shows the run.
pub fn reports_show()
    ensures { ReportsShow }
{}

/// A legal run that is quiet at a key and leaves a public parameter unbound there satisfies the
/// clauses that liveness adds.
pub fn rest_holds()
    ensures { RestHolds }
{
    // law: lists of values that the test finds equal are one list
    equal_values_are_one();
    // law: a parameter is known exactly if some event binds it
    known_exactly_if_some_event_binds();
    // law: a parameter is bound exactly if some message with it is sent
    bound_exactly_if_sent();
}

/// Each legal run that does what a property excludes gives an assignment that satisfies the clauses
/// of the property's formula.
pub fn violation_has_model()
    ensures { ViolationHasModel }
{
    // laws: the run has an assignment of its first occurrences, and it satisfies each family
    assignment_exists();
    shared_clauses_hold();
    rivals_hold();
    rest_holds();
}

/// A protocol has a property if no assignment satisfies the formula of both: any legal run that
/// does what the property excludes, over any number of keys, would give one (after Singh 2012).
pub fn unsatisfiable_holds()
    ensures { UnsatisfiableHolds }
{
    // laws: a violation gives an assignment, and it satisfies the clauses of what is written
    violation_has_model();
    written_is_satisfied();
    // law: without a conflict all roles agree
    no_conflict_agrees();
    // law: whether a parameter is bound is decided by what is sent
    bound_exactly_if_sent();
}
