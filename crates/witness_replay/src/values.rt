ghost use Rattle.std.specs.Prelude.{◌≡◌, ◌<◌, length, IfOk};
ghost use Rattle.std.specs.List.{All, AllZip};
ghost use Rattle.bspl_types.specs.Adornment.{valued};
ghost use Rattle.bspl_types.specs.Expansion.{message_of};
ghost use Rattle.bspl_types.specs.History.{IsRun, sender_history};
ghost use Rattle.bspl_types.specs.Knowledge.{IsKnown};
ghost use Rattle.role_knowledge.specs.FirstKnown.{IsFirstKnown};
ghost use Rattle.witness_replay.specs.Witness.{key_of_ones};
ghost use Rattle.witness_replay.specs.inner.Values.{HasValueOf, IsInKnown};

use bspl_types::{Adornment, Carried, Event, Expanded, Key, Value};
use list_base::{NoMemory, Seq};
use role_knowledge::knows;
use std::alloc::Global;

/// The value of each parameter adorned `in` or `out` in the instance of the message after these
/// events.
pub(crate) fn values_after(
    alloc: Global,
    x: &Expanded,
    before: &[Event],
    key: &Key,
    m: u32,
) -> Result<Seq<Value>, NoMemory>
    requires run { IsRun x.now before.now }
    requires message { m < length x.now.messages }
    requires ones { key.now ≡ key_of_ones x.now }
    requires known { All (IsInKnown x.now before.now m) (message_of x.now m).carried }
    ensures { IfOk result
        (AllZip (HasValueOf x.now before.now m) (valued (message_of x.now m).carried)) }
{
    let carried = x.message_at(m).carried.as_slice();
    let mut values = Seq::new(alloc);
    for c in carried {
        if c.adornment.has_value() {
            values.push(value_after(x, before, key, m, *c))?;
        }
    }
    Ok(values)
}

/// The value of one parameter: 1 for a key; else the message's number, from 1, for an `out`, and
/// for an `in` the first value that the sender knows.
fn value_after(x: &Expanded, before: &[Event], key: &Key, m: u32, c: Carried) -> Value
    requires run { IsRun x.now before.now }
    requires message { m < length x.now.messages }
    requires ones { key.now ≡ key_of_ones x.now }
    requires known { IsInKnown x.now before.now m c }
    ensures { HasValueOf x.now before.now m c result }
{
    if x.keys.as_slice().contains(&c.param) {
        return Value::Number(1);
    }
    match c.adornment {
        Adornment::In => first_known(x, before, key, m, c.param),
        Adornment::Out | Adornment::Nil => Value::Number(u64::from(m) + 1),
    }
}

/// The first value of the parameter that the message's sender knows.
fn first_known(x: &Expanded, before: &[Event], key: &Key, m: u32, param: u32) -> Value
    requires run { IsRun x.now before.now }
    requires message { m < length x.now.messages }
    requires ones { key.now ≡ key_of_ones x.now }
    requires known { IsKnown x.now (sender_history x.now before.now m) (key_of_ones x.now) param }
    ensures { let history = sender_history x.now before.now m in
        IsFirstKnown x.now history (key_of_ones x.now) param result }
{
    knows(x, before, x.message_at(m).sender, key, param).unwrap()
}
