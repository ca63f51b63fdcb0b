ghost use Rattle.role_server.specs.Laws.{FirstStoreIsConsistent, LinesHaveOneReply, RepliesAreDetermined};

use super::served_role::ServedRole;
use bspl_types::equal_values_are_one;
use kept_lines::kept_lines_replay;
use local_store::next_stays_local;
use role_knowledge::answers_once;
use wire_form::asks_once;

/// A law: the replies to a stream of lines, and the store after them, are a function of the lines
/// and of the store before them. It holds from the store on with which a role begins.
pub fn replies_are_determined()
    ensures replies { RepliesAreDetermined }
    ensures lines { LinesHaveOneReply }
    ensures first { FirstStoreIsConsistent }
{
    // law: lines have one outcome if each of them has
    kept_lines_replay::<ServedRole>();
    // law: a line asks for one act of a role at most
    asks_once();
    // law: one block of a message is the first
    answers_once();
    // law: a store's history stays local
    next_stays_local();
    // law: `==` of keys is equality
    equal_values_are_one();
}
