ghost use Rattle.run_chart.specs.Laws.{ArrowsJoinInstances, MarksAreTheEvents};
ghost use Rattle.run_chart.specs.Laws.{ReceptionsHaveArrows, ShowsKnowledge, StubsAreMissing};

use enactment_model::legal_by_positions;

/// A law: a chart marks each event of its run once, in order.
pub fn marks_are_the_events()
    ensures { MarksAreTheEvents }
{}

/// A law: an arrow leads from the emission of an instance to a reception of it, between the
/// lifelines of its message's sender and receiver.
pub fn arrows_join_instances()
    ensures { ArrowsJoinInstances }
{}

/// A law: to each reception of a legal run an arrow leads, from an earlier emission.
pub fn receptions_have_arrows()
    ensures { ReceptionsHaveArrows }
{
    // law: the event at each position of a legal run may follow the events before it
    legal_by_positions();
}

/// A law: a stub begins at an emission whose instance the run does not receive.
pub fn stubs_are_missing()
    ensures { StubsAreMissing }
{}

/// A law: what the table shows as known before an event is what its role knew first.
pub fn shows_knowledge()
    ensures { ShowsKnowledge }
{}
