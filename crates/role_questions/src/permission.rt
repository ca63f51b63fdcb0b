ghost use Rattle.std.specs.Prelude.{◌↔◌, ◌<◌, length, IsTrue};
ghost use Rattle.std.specs.List.{All};
ghost use Rattle.local_store.specs.State.{acts_of};
ghost use Rattle.role_questions.specs.Forms.{MaySend};
ghost use Rattle.role_knowledge.specs.Blocked.{IsPermitted};

use bspl_types::{Adornment, Carried, Key};
use local_store::Store;

/// Whether the role may send the message now under the key.
pub fn may_send(store: &Store, key: &Key, message: u32) -> bool
    requires { message < length store.now.protocol.messages }
    ensures { IsTrue result ↔ MaySend store.now key.now message }
{
    let schema = store.admitted().expanded().message_at(message);
    schema.sender == store.role() && are_permitted(store, key, schema.carried.as_slice())
}

/// Whether the role's knowledge under the key is as each of the parameters demands.
fn are_permitted(store: &Store, key: &Key, carried: &[Carried]) -> bool
    ensures { IsTrue result ↔
        All (IsPermitted store.now.protocol (acts_of store.now) key.now) carried.now }
{
    carried.iter().all(|c| is_permitted(store, key, *c))
}

/// Whether the role's knowledge of the parameter under the key is as its adornment demands. Under
/// a key that is not held nothing is known.
fn is_permitted(store: &Store, key: &Key, c: Carried) -> bool
    ensures { IsTrue result ↔ IsPermitted store.now.protocol (acts_of store.now) key.now c }
{
    match (c.adornment, store.value(key, c.param)) {
        (Adornment::In, None) => false,
        (Adornment::Out | Adornment::Nil, Some(_)) => false,
        (_, _) => true,
    }
}
