ghost use Rattle.std.specs.Prelude.{◌≡◌, ◌↔◌, ◌<◌, ◌++◌, ◌∷◌, [], length, IfOk, IsSome, IsTrue, OnErr, OnOk};
ghost use Rattle.std.specs.List.{Contains};
ghost use Rattle.role_server.specs.Replies.{Acts, AnswersAct, HasNoRoom, IsLast, KeepsRole, Replies, act_key, stamp_of};
ghost use Rattle.role_server.specs.inner.Acts.{HoldsKey, IsBeforeLast, IsOwn, IsReady};

use bspl_types::Key;
use list_base::NoMemory;
use local_store::Store;
use wire_form::{Act, LineReader, Reading, Refusal, Reply};

/// The last value of a clock.
const LAST_STAMP: u64 = u64::MAX;

/// Answers the line with this body, and an LF after it, where at most so many keys are held. The
/// reader keeps its memory for the next.
#[tactic(auto, using(crate::proofs::ActLemmas::own_act))]
pub fn answer_line(
    reader: &mut LineReader,
    store: &mut Store,
    most_keys: u32,
    body: &[u8],
) -> Result<Reply, NoMemory>
    ensures reply { IfOk result (λ reply.
        Replies most_keys store.old (body.now ++ 10 ∷ []) reply store.new) }
    ensures err { OnErr result (store.new ≡ store.old) }
    ensures role { KeepsRole store.old store.new }
{
    match reader.read(store.admitted(), store.role(), body)? {
        Reading::NotRead => Ok(Reply::Refused(Refusal::F1)),
        Reading::NotMeant => Ok(Reply::Refused(Refusal::F2)),
        Reading::Meant(act) => answer_act(store, most_keys, &act),
    }
}

/// Answers what a line asks for.
#[tactic(auto, using(crate::proofs::ActLemmas::own_key, crate::proofs::ActLemmas::found_held, crate::proofs::ActLemmas::few_held, crate::proofs::ActLemmas::ready, crate::proofs::ActLemmas::keeps_after))]
fn answer_act(store: &mut Store, most_keys: u32, act: &Act) -> Result<Reply, NoMemory>
    requires { IsOwn store.old.protocol store.old.role act.now }
    ensures reply { IfOk result (λ reply.
        AnswersAct most_keys store.old act.now reply store.new) }
    ensures err { OnErr result (store.new ≡ store.old) }
    ensures role { KeepsRole store.old store.new }
{
    let key = key_of(act);
    let row = store.find(key);
    if has_no_room(store, most_keys, key, row) {
        return Ok(Reply::Refused(Refusal::F3));
    }
    if is_last(store, act) {
        return Ok(Reply::Refused(Refusal::F4));
    }
    hold(store, key, row)?;
    Ok(reply_to(store, act))
}

/// The key under which the act is.
pub(crate) fn key_of(act: &Act) -> &Key
    ensures { result.now ≡ act_key act.now }
{
    match act {
        Act::Arrival(message) => &message.instance.key,
        Act::Attempt { key, .. } => key,
    }
}

/// Whether there is no room for a further event or for the key, whose row this is if it is held.
fn has_no_room(store: &Store, most_keys: u32, key: &Key, row: Option<usize>) -> bool
    requires { IsSome row ↔ Contains store.now.keys key.now }
    ensures { IsTrue result ↔ HasNoRoom most_keys store.now key.now }
{
    store.spare() == 0 || (row.is_none() && store.held() >= most_keys)
}

/// Whether the clock, or the stamp that comes, is at its last value.
pub(crate) fn is_last(store: &Store, act: &Act) -> bool
    ensures exact { IsTrue result ↔ IsLast store.now act.now }
    ensures before { ¬ IsTrue result → IsBeforeLast store.now act.now }
{
    let stamp = stamp_of(act);
    store.clock() == LAST_STAMP || stamp == LAST_STAMP
}

/// The stamp that comes with the act, or 0.
fn stamp_of(act: &Act) -> u64
    ensures { result ≡ stamp_of act.now }
{
    match act {
        Act::Arrival(message) => message.stamp,
        Act::Attempt { .. } => 0,
    }
}

/// Makes the key held, for which there is room.
#[tactic(auto, using(crate::proofs::ActLemmas::held_before, crate::proofs::ActLemmas::held_then))]
fn hold(store: &mut Store, key: &Key, row: Option<usize>) -> Result<(), NoMemory>
    requires row { IsSome row ↔ Contains store.old.keys key.now }
    requires whole { length key.now ≡ length store.old.protocol.keys }
    requires few { ¬ Contains store.old.keys key.now → length store.old.keys < 4294967295 }
    ensures ok { OnOk result (HoldsKey store.old key.now store.new) }
    ensures err { OnErr result (store.new ≡ store.old) }
{
    if row.is_some() {
        return Ok(());
    }
    store.add_key(key)
}

/// Does the act, and gives the reply to it.
#[tactic(auto, using(crate::proofs::ActLemmas::receipt_keeps))]
pub(crate) fn reply_to(store: &mut Store, act: &Act) -> Reply
    requires { IsReady store.old act.now }
    ensures reply { Acts store.old act.now result store.new }
    ensures role { KeepsRole store.old store.new }
{
    match act {
        Act::Arrival(message) => Reply::Received(store.receive(message)),
        Act::Attempt { message, key, outs } => {
            match store.emit(*message, key, outs.as_slice()) {
                Ok(sent) => Reply::Sent(sent),
                Err(block) => Reply::Blocked(block),
            }
        }
    }
}
