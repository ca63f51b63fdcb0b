ghost use Rattle.enactment_model.specs.Laws.{HistoryIsRun, KnownExactlyIfSomeEventBinds};
ghost use Rattle.enactment_model.specs.Laws.{LegalByPositions, PrefixIsLegal, PrefixIsLegalRun};
ghost use Rattle.enactment_model.specs.Laws.{NoConflictAgrees, OneProducerIsSafe};
ghost use Rattle.enactment_model.specs.Laws.{ProjectionKeeps, SecondEmissionIsNotEnabled};
ghost use Rattle.enactment_model.specs.Property.{ViolatedDoesNotHold};
ghost use Rattle.enactment_model.specs.ShortestConflict.{ShortestConflict};

use bspl_types::equal_values_are_one;

/// A run is legal exactly if the event at each position may follow the events before it.
pub fn legal_by_positions()
    ensures { LegalByPositions }
{}

/// A prefix of a legal run is legal.
pub fn prefix_is_legal()
    ensures legal { PrefixIsLegal }
    ensures run { PrefixIsLegalRun }
{}

/// Deleting the events of all other keys from a legal run leaves a legal run with the same
/// knowledge, conflicts and quietness under the key that stays: enactments under two keys do not
/// interfere (Singh 2011).
pub fn projection_keeps()
    ensures { ProjectionKeeps }
{
    // law: lists of values that the test finds equal are one list
    equal_values_are_one();
}

/// A role knows a parameter under a key exactly if some event of its history under that key has a
/// message that adorns the parameter `in` or `out`.
pub fn known_exactly_if_some_event_binds()
    ensures known { KnownExactlyIfSomeEventBinds }
    ensures history { HistoryIsRun }
{}

/// A legal run without a conflict agrees, because every known value goes back to the one emission
/// that produced it (Singh 2012).
pub fn no_conflict_agrees()
    ensures { NoConflictAgrees }
{}

/// A second emission of one message with an `out` is never enabled under a key: its sender knows
/// the value of the first (Singh 2011).
pub fn second_emission_is_not_enabled()
    ensures { SecondEmissionIsNotEnabled }
{}

/// An admitted protocol is safe if no parameter has two messages that produce it (Singh 2012).
pub fn one_producer_is_safe()
    ensures { OneProducerIsSafe }
{}

/// A legal run with a conflict has a shortest prefix with one: a legal run whose last event is the
/// conflict's second producer.
pub fn shortest_conflict()
    ensures { ShortestConflict }
{
    // law: lists of values that the test finds equal are one list
    equal_values_are_one();
}

/// A protocol with a legal run that does what a property excludes does not have the property.
pub fn violated_does_not_hold()
    ensures { ViolatedDoesNotHold }
{}
