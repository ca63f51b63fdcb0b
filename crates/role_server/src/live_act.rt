ghost use Rattle.std.specs.Prelude.{◌≡◌, ◌≢◌, ◌↔◌, ◌<◌, length, IfOk, IsTrue, MatchOption, OnErr, OnOk};
ghost use Rattle.std.specs.List.{All, Contains};
ghost use Rattle.bspl_types.specs.declared.protocol.Adornment.TheVariants.{In};
ghost use Rattle.role_server.specs.Live.{live_limit, with_live_room};
ghost use Rattle.role_server.specs.Replies.{KeepsRole, act_key};
ghost use Rattle.role_server.specs.inner.Acts.{IsOwn};
ghost use Rattle.role_server.specs.inner.LiveActs.{BlocksFirst, DoesLive, HasGrown, HasPlace, IsFirstIn, NeedsNothing};

use super::answer::{key_of, reply_to};
use bspl_types::{Adornment, Carried};
use list_base::NoMemory;
use local_store::Store;
use role_knowledge::Block;
use wire_form::{Act, Reply};

/// The most events, and the most keys.
pub(crate) const LIVE_LIMIT: u32 = u32::MAX;

/// How many events there is room for at first.
const FIRST_ROOM: u32 = 64;

/// Does the act, whose key is held.
#[tactic(auto, using(crate::proofs::LiveLemmas::ready_held))]
pub(crate) fn act_under_held_key(store: &mut Store, act: &Act) -> Result<Reply, NoMemory>
    requires held { Contains store.old.keys (act_key act.now) }
    requires place { HasPlace store.old act.now }
    ensures reply { IfOk result (λ reply.
        DoesLive (with_live_room store.old) act.now reply (with_live_room store.new)) }
    ensures err { OnErr result (with_live_room store.new ≡ with_live_room store.old) }
    ensures role { KeepsRole store.old store.new }
{
    grow(store)?;
    Ok(reply_to(store, act))
}

/// Does the act, whose key is not held. It is added if the act makes an event.
#[tactic(auto, using(crate::proofs::LiveLemmas::ready_new))]
pub(crate) fn act_under_new_key(store: &mut Store, act: &Act) -> Result<Reply, NoMemory>
    requires fresh { ¬ Contains store.old.keys (act_key act.now) }
    requires few { length store.old.keys < live_limit }
    requires place { HasPlace store.old act.now }
    ensures reply { IfOk result (λ reply.
        DoesLive (with_live_room store.old) act.now reply (with_live_room store.new)) }
    ensures err { OnErr result (with_live_room store.new ≡ with_live_room store.old) }
    ensures role { KeepsRole store.old store.new }
{
    // law: under a key that is not held there is no event
    store.is_consistent();
    if let Some(block) = block_unheld(store, act) {
        return Ok(Reply::Blocked(block));
    }
    grow(store)?;
    store.add_key(key_of(act))?;
    Ok(reply_to(store, act))
}

/// What blocks the act under a key that is not held. Nothing is known there, so it is the first
/// parameter that is to be known.
fn block_unheld(store: &Store, act: &Act) -> Option<Block>
    requires { IsOwn store.now.protocol store.now.role act.now }
    ensures { MatchOption result
        (NeedsNothing store.now.protocol act.now) (BlocksFirst store.now.protocol act.now) }
{
    match act {
        Act::Arrival(_) => None,
        Act::Attempt { message, .. } => {
            let schema = store.admitted().expanded().message_at(*message);
            first_in(schema.carried.as_slice())
        }
    }
}

/// The block of the first parameter that is adorned `in`.
fn first_in(carried: &[Carried]) -> Option<Block>
    ensures { MatchOption result
        (All (λ c. c.adornment ≢ In) carried.now) (IsFirstIn carried.now) }
{
    for c in carried {
        if is_in(*c) {
            return Some(Block::Missing { param: c.param });
        }
    }
    None
}

/// Whether the parameter is adorned `in`.
fn is_in(c: Carried) -> bool
    ensures { IsTrue result ↔ (c.adornment ≡ In) }
{
    matches!(c.adornment, Adornment::In)
}

/// Makes room for an event, if there is none: for as many again as there are events.
fn grow(store: &mut Store) -> Result<(), NoMemory>
    requires { length store.old.entries < live_limit }
    ensures ok { OnOk result (HasGrown store.old store.new) }
    ensures err { OnErr result (store.new ≡ store.old) }
{
    if store.spare() > 0 {
        return Ok(());
    }
    let rest = LIVE_LIMIT - store.len();
    store.reserve(store.len().max(FIRST_ROOM).min(rest))
}
