ghost use Rattle.std.specs.Prelude.{◌≡◌, ◌==◌, ◌<◌, [], ◌∷◌, IsTrue, IfOk, length};
ghost use Rattle.std.specs.List.{Contains, filter, list_any};
ghost use Rattle.bspl_types.specs.Choice.{is_chosen};
ghost use Rattle.stamped_history.specs.Entries.{clock_limit, last_stamp};

use agent_scripts::Job;
use bspl_parser::{parse, reads_back};
use bspl_types::{Admitted, Adornment, Carried, Expanded, Key, NoMemory, Refusal, Seq, Value};
use local_store::Store;
use protocol_expand::{admit, expand};
use script_text::read_scripts;
use std::alloc::Global;
use std::test::Fail;

/// A asks B (1) with a text x, and B tells A.
pub(crate) const TALK: &[u8] = b"P {
  roles A, B
  parameters out ID key, out x, out y
  A -> B: ask[out ID, out x]
  B -> A: tell[in ID, in x, out y]
}";

/// Each role sends a message to the next one, and the last one to the first.
pub(crate) const RELAY: &[u8] = b"P {
  roles A, B, C
  parameters out ID key, out x, out y, out z
  A -> B: a[out ID, out x]
  B -> C: b[in ID, in x, out y]
  C -> A: c[in ID, in y, out z]
}";

/// The key of these numbers, if there are one or two.
pub(crate) fn key(numbers: &[u64]) -> Option<Key> {
    match numbers {
        [n] => Some(Key::of(&[Value::Number(*n)])),
        [n, m] => Some(Key::of(&[Value::Number(*n), Value::Number(*m)])),
        _ => None,
    }
}

/// Whether the value is that number.
pub(crate) fn is_number(value: &Value, number: u64) -> bool {
    value.same(&Value::Number(number))
}

/// The expansion of the protocol `P` of the text.
fn expansion(alloc: Global, text: &[u8]) -> Result<Expanded, Refusal> {
    // law: the document of a text is well formed
    reads_back();
    let document = parse(alloc, text)?;
    expand(alloc, &document, b"P")
}

/// The protocol `P` of the text, which is admitted.
pub(crate) fn admitted(alloc: Global, text: &[u8]) -> Result<Admitted, Fail> {
    let x = expansion(alloc, text)
        .ok()
        .ok_or("the text has no expansion")?;
    Ok(admit(x).ok().ok_or("the protocol is not admitted")?)
}

/// The protocol, and the agents of the text.
pub(crate) fn job_of(alloc: Global, protocol: &[u8], text: &[u8]) -> Result<Job, Fail> {
    let protocol = admitted(alloc, protocol)?;
    let agents = read_scripts(alloc, text, &protocol)?;
    Ok(Job::of(protocol, agents))
}

/// A list of the item alone: it is one value to drop, where the item may have many.
pub(crate) fn alone<T: Drop>(alloc: Global, item: T) -> Result<Seq<T>, NoMemory>
    ensures { IfOk result (λ list. list ≡ item ∷ []) }
{
    let mut list = Seq::new(alloc);
    list.push(item)?;
    Ok(list)
}

/// A store of the role, if the protocol has it.
fn store_of(alloc: Global, protocol: &Admitted, role: u32) -> Result<Store, Fail> {
    if role as usize >= protocol.expanded().roles.len() {
        return Err("the protocol has no such role".into());
    }
    Ok(Store::new(alloc, protocol, role)?)
}

/// A store of the role of the protocol `P` of the text.
pub(crate) fn store(alloc: Global, text: &[u8], role: u32) -> Result<Store, Fail> {
    let protocols = alone(alloc, admitted(alloc, text)?)?;
    store_of(alloc, protocols.at(0), role)
}

/// Makes room for ten events in a store with few events.
pub(crate) fn make_room(store: &mut Store) -> Result<(), Fail> {
    if store.len() > 10 {
        return Err("the store has many events".into());
    }
    store.reserve(10)?;
    Ok(())
}

/// Makes the key of these numbers held.
pub(crate) fn hold(store: &mut Store, numbers: &[u64]) -> Result<(), Fail> {
    let key = key(numbers).ok_or("there are too many numbers")?;
    let count = store.admitted().expanded().keys.len();
    if key.len() != count || store.held() == u32::MAX {
        return Err("the protocol has another number of keys".into());
    }
    store.add_key(&key)?;
    Ok(())
}

/// Whether the store holds the key and can take one event more.
pub(crate) fn has_room(store: &Store, key: &Key) -> bool
    ensures held { IsTrue result → Contains store.now.keys key.now }
    ensures spare { IsTrue result → 0 < store.now.spare }
    ensures clock { IsTrue result → last_stamp store.now.entries < clock_limit }
{
    store.holds(key) && store.spare() > 0 && store.clock() < u64::MAX
}

/// How many values the sender chooses.
pub(crate) fn count_chosen(keys: &[u32], carried: &[Carried]) -> usize
    ensures { result ≡ length (filter (is_chosen keys.now) carried.now) }
{
    carried.iter().filter(|c| is_chosen(keys, **c)).count()
}

/// Whether the parameter is adorned `out` and is no key.
fn is_chosen(keys: &[u32], c: Carried) -> bool
    ensures { result ≡ is_chosen keys.now c }
{
    match c.adornment {
        Adornment::Out => !is_key(keys, c.param),
        Adornment::In | Adornment::Nil => false,
    }
}

/// Whether the parameter is a key.
fn is_key(keys: &[u32], param: u32) -> bool
    ensures { result ≡ list_any (λ key. key == param) keys.now }
{
    keys.iter().any(|key| *key == param)
}
