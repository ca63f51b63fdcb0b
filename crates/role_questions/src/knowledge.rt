ghost use Rattle.std.specs.Prelude.{OnOk, IfOk};
ghost use Rattle.local_store.specs.State.{acts_of};
ghost use Rattle.role_questions.specs.Known.{IsKnowledge};
ghost use Rattle.role_questions.specs.inner.Added.{AddsKnown};

use super::form::{KnownValue, KnownValueList};
use bspl_types::Key;
use list_base::{NoMemory, Seq};
use local_store::Store;
use std::alloc::Global;

/// Exactly what the role knows under the key, in the order of the protocol's parameters. Under a
/// key that is not held that is nothing.
pub fn known(alloc: Global, store: &Store, key: &Key) -> Result<KnownValueList, NoMemory>
    ensures { IfOk result (IsKnowledge store.now.protocol (acts_of store.now) key.now) }
{
    // law: the store is consistent
    store.is_consistent();
    let count = store.admitted().expanded().params.len();
    let mut list = Seq::new(alloc);
    for param in 0..count {
        push_known(&mut list, store, key, param as u32)?;
    }
    Ok(list)
}

/// Puts the parameter with its value at the end, if the role knows one under the key.
pub fn push_known(
    list: &mut KnownValueList,
    store: &Store,
    key: &Key,
    param: u32,
) -> Result<(), NoMemory>
    ensures { OnOk result (AddsKnown store.now.protocol (acts_of store.now) key.now param
        list.old list.new) }
{
    match store.value(key, param) {
        None => Ok(()),
        Some(value) => list.push(KnownValue { param, value }),
    }
}
