ghost use Rattle.answer_words.specs.Laws.{NamedEventsClash, ProducersAreBlocked};

use enactment_model::{known_exactly_if_some_event_binds, legal_by_positions};

/// A law: the events that a right verdict on safety names are in conflict over the parameter that
/// it names, and the sender of the second does not know the parameter before it.
pub fn named_events_clash()
    ensures { NamedEventsClash }
{
    // law: each event of a legal run may follow those before it
    legal_by_positions();
}

/// A law: after the run of a right verdict on liveness no message can be sent that would produce
/// the parameter that it names.
pub fn producers_are_blocked()
    ensures { ProducersAreBlocked }
{
    // law: what is known was bound by an event before
    known_exactly_if_some_event_binds();
}
