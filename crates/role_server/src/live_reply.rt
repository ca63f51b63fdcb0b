ghost use Rattle.std.specs.Prelude.{◌≡◌, ◌↔◌, ◌++◌, ◌∷◌, [], IfOk, IsSome, IsTrue, OnErr};
ghost use Rattle.std.specs.List.{Contains};
ghost use Rattle.role_server.specs.Live.{RepliesLive, live_limit, with_live_room};
ghost use Rattle.role_server.specs.Replies.{HasNoRoom, KeepsRole};
ghost use Rattle.role_server.specs.inner.Acts.{IsOwn};
ghost use Rattle.role_server.specs.inner.LiveActs.{AnswersLive};

use super::answer::{is_last, key_of};
use super::live_act::{LIVE_LIMIT, act_under_held_key, act_under_new_key};
use bspl_types::Key;
use list_base::NoMemory;
use local_store::Store;
use wire_form::{Act, LineReader, Reading, Refusal, Reply};

/// Answers the line with this body, and an LF after it.
#[tactic(auto, using(crate::proofs::ActLemmas::own_act))]
pub(crate) fn reply_live(
    reader: &mut LineReader,
    store: &mut Store,
    body: &[u8],
) -> Result<Reply, NoMemory>
    ensures reply { IfOk result (λ reply. RepliesLive (with_live_room store.old)
        (body.now ++ 10 ∷ []) reply (with_live_room store.new)) }
    ensures err { OnErr result (with_live_room store.new ≡ with_live_room store.old) }
    ensures role { KeepsRole store.old store.new }
{
    match reader.read(store.admitted(), store.role(), body)? {
        Reading::NotRead => Ok(Reply::Refused(Refusal::F1)),
        Reading::NotMeant => Ok(Reply::Refused(Refusal::F2)),
        Reading::Meant(act) => answer_live(store, &act),
    }
}

/// Answers what a line asks for.
#[tactic(auto, using(crate::proofs::ActLemmas::found_held))]
fn answer_live(store: &mut Store, act: &Act) -> Result<Reply, NoMemory>
    requires { IsOwn store.old.protocol store.old.role act.now }
    ensures reply { IfOk result (λ reply.
        AnswersLive (with_live_room store.old) act.now reply (with_live_room store.new)) }
    ensures err { OnErr result (with_live_room store.new ≡ with_live_room store.old) }
    ensures role { KeepsRole store.old store.new }
{
    let key = key_of(act);
    let row = store.find(key);
    if is_full(store, key, row) {
        return Ok(Reply::Refused(Refusal::F3));
    }
    if is_last(store, act) {
        return Ok(Reply::Refused(Refusal::F4));
    }
    if row.is_some() {
        act_under_held_key(store, act)
    } else {
        act_under_new_key(store, act)
    }
}

/// Whether there are as many events as there may be, or as many keys, if the key is not held. This
/// is its row if it is.
fn is_full(store: &Store, key: &Key, row: Option<usize>) -> bool
    requires { IsSome row ↔ Contains store.now.keys key.now }
    ensures { IsTrue result ↔ HasNoRoom live_limit (with_live_room store.now) key.now }
{
    store.len() >= LIVE_LIMIT || (row.is_none() && store.held() >= LIVE_LIMIT)
}
