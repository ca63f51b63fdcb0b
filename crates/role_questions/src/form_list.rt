ghost use Rattle.std.specs.Prelude.{◌≡◌, ◌==◌, ◌↔◌, ◌<◌, length, map, IfOk, IsTrue};
ghost use Rattle.std.specs.List.{All, filter, list_any};
ghost use Rattle.bspl_types.specs.declared.protocol.Adornment.TheVariants.{In};
ghost use Rattle.bspl_types.specs.Choice.{is_chosen};
ghost use Rattle.local_store.specs.State.{acts_of};
ghost use Rattle.role_questions.specs.Forms.{AreForms, MaySend, ListsIns, is_adorned_in};
ghost use Rattle.role_knowledge.specs.Blocked.{IsPermitted};
ghost use Rattle.role_questions.specs.inner.FormOf.{IsFormOf};

use super::form::{Form, FormList, KnownValueList};
use super::knowledge::push_known;
use super::permission::may_send;
use bspl_types::{Adornment, Carried, Key};
use list_base::{NoMemory, NumberList, Seq};
use local_store::Store;
use std::alloc::Global;

/// The forms of exactly the messages that the role may send now under the key, in the protocol's
/// order. The key need not be held. It has a value for each key parameter: under another one no
/// instance fits the protocol, so a form could not be filled in there.
pub fn forms(alloc: Global, store: &Store, key: &Key) -> Result<FormList, NoMemory>
    requires { length key.now ≡ length store.now.protocol.keys }
    ensures { IfOk result (AreForms store.now key.now) }
{
    let count = store.admitted().expanded().messages.len();
    let mut forms = Seq::new(alloc);
    for message in 0..count {
        if may_send(store, key, message as u32) {
            let form = form_of(alloc, store, key, message as u32)?;
            forms.push(form)?;
        }
    }
    Ok(forms)
}

/// The form of a message that the role may send now under the key.
fn form_of(alloc: Global, store: &Store, key: &Key, message: u32) -> Result<Form, NoMemory>
    requires { MaySend store.now key.now message }
    ensures { IfOk result (IsFormOf store.now key.now message) }
{
    let x = store.admitted().expanded();
    let carried = x.message_at(message).carried.as_slice();
    let ins = known_ins(alloc, store, key, carried)?;
    let outs = chosen(alloc, x.keys.as_slice(), carried)?;
    Ok(Form {
        message,
        sent: store.emitted(message, key),
        ins,
        outs,
    })
}

/// The known values of those of the parameters that are adorned `in`, in their order.
fn known_ins(
    alloc: Global,
    store: &Store,
    key: &Key,
    carried: &[Carried],
) -> Result<KnownValueList, NoMemory>
    requires { All (IsPermitted store.now.protocol (acts_of store.now) key.now) carried.now }
    ensures known { IfOk result
        (ListsIns store.now.protocol (acts_of store.now) key.now carried.now) }
    ensures in_order { IfOk result (λ ins.
        map (λ k. k.param) ins ≡ map (λ c. c.param) (filter is_adorned_in carried.now)) }
{
    // law: the store is consistent
    store.is_consistent();
    let mut ins = Seq::new(alloc);
    for c in carried {
        if is_in(*c) {
            push_known(&mut ins, store, key, c.param)?;
        }
    }
    Ok(ins)
}

/// Whether the parameter is adorned `in`.
fn is_in(c: Carried) -> bool
    ensures exact { IsTrue result ↔ (c.adornment ≡ In) }
    ensures test { result ≡ is_adorned_in c }
{
    matches!(c.adornment, Adornment::In)
}

/// Those of the parameters that are adorned `out` and are no keys, in their order.
fn chosen(alloc: Global, keys: &[u32], carried: &[Carried]) -> Result<NumberList, NoMemory>
    ensures { IfOk result
        (λ outs. outs ≡ map (λ c. c.param) (filter (is_chosen keys.now) carried.now)) }
{
    let mut outs = Seq::new(alloc);
    for c in carried {
        if is_chosen(keys, *c) {
            outs.push(c.param)?;
        }
    }
    Ok(outs)
}

/// Whether the parameter is adorned `out` and is no key.
fn is_chosen(keys: &[u32], c: Carried) -> bool
    ensures { result ≡ is_chosen keys.now c }
{
    matches!(c.adornment, Adornment::Out) && !is_key(keys, c.param)
}

/// Whether the parameter is a key.
fn is_key(keys: &[u32], param: u32) -> bool
    ensures { result ≡ list_any (λ key. key == param) keys.now }
{
    keys.iter().any(|key| *key == param)
}
