ghost use Rattle.adapter.specs.Laws.{IsOrderly, KeptEventsAreFew, NewStatesAreKept};
ghost use Rattle.adapter.specs.Laws.{NextEnvelopesAreOne};
ghost use Rattle.adapter.specs.Laws.{OrdersAreDistinct, TakenEnvelopesExplain};

use agent_scripts::{Job, scripts_fit};

/// A law: no message stands twice in the order that a script gives a role.
pub fn orders_are_distinct()
    ensures { OrdersAreDistinct }
{}

/// A law: what a kept desk emits next is determined, so `desk_plan` answers what `desk_emit` would.
pub fn next_envelopes_are_one()
    ensures { NextEnvelopesAreOne }
{}

/// A law: a kept desk has at most one event for each workload key and message of its role.
pub fn kept_events_are_few()
    ensures { KeptEventsAreFew }
{}

/// A law: a new state is kept.
pub fn new_states_are_kept()
    ensures { NewStatesAreKept }
{}

/// A law: what a role took out of its mailbox, and its sender posted, explains the role's receipt.
pub fn taken_envelopes_explain()
    ensures { TakenEnvelopesExplain }
{}

/// A law: the job's script is one for its protocol and fits it, its keys and rules fit each other,
/// and no message stands twice in an order.
pub fn is_orderly(job: &Job)
    ensures { IsOrderly job.now }
{
    // laws: a script fits its protocol, its orders are distinct, and its keys and rules fit
    scripts_fit();
    orders_are_distinct();
    job.script().count();
}
