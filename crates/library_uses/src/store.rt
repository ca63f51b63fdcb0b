ghost use Rattle.std.specs.Prelude.{◌≡◌, ◌<◌, [], length, IfOk, MatchOption};
ghost use Rattle.bspl_types.specs.Choice.{chosen_params};
ghost use Rattle.bspl_types.specs.Knowledge.{CanEmit};
ghost use Rattle.library_uses.specs.Uses.{BeginsEnactment};

use bspl_types::{Admitted, Key, Value};
use list_base::NoMemory;
use local_store::Store;
use std::alloc::Global;

/// A store whose only event emits the message under the key, with these values of its `out`
/// parameters that are no keys; or nothing if the sender may not begin with the message.
pub fn begun_store(
    alloc: Global,
    a: &Admitted,
    message: u32,
    key: &Key,
    outs: &[Value],
) -> Result<Option<Store>, NoMemory>
    requires known { message < length a.now.messages }
    requires whole { length key.now ≡ length a.now.keys }
    requires chosen { length outs.now ≡ length (chosen_params a.now message) }
    ensures { IfOk result (λ begun. MatchOption begun
        (¬ CanEmit a.now [] message key.now)
        (BeginsEnactment a.now message key.now outs.now)) }
{
    let sender = a.expanded().message_at(message).sender;
    let mut store = Store::new(alloc, a, sender)?;
    store.add_key(key)?;
    store.reserve(1)?;
    match store.emit(message, key, outs) {
        Ok(_) => Ok(Some(store)),
        Err(_) => Ok(None),
    }
}
