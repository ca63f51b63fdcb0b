ghost use Rattle.role_server.specs.LiveLaws.{FirstLiveStoreIsConsistent, LiveLinesKeepOrStay, LiveRepliesAreOne};

use bspl_types::equal_values_are_one;
use local_store::next_stays_local;
use role_knowledge::answers_once;
use wire_form::asks_once;

/// A law: from each store of a role on, a line of a live role has one outcome. A line that is kept
/// has its LF, and each other leaves the store. The store before the first line is consistent.
pub fn live_replies_are_determined()
    ensures once { LiveRepliesAreOne }
    ensures keeps { LiveLinesKeepOrStay }
    ensures first { FirstLiveStoreIsConsistent }
{
    // law: a line asks for one act of a role at most
    asks_once();
    // law: one block of a message is the first
    answers_once();
    // law: a store's history stays local
    next_stays_local();
    // law: `==` of keys is equality
    equal_values_are_one();
}
