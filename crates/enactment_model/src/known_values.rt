ghost use Rattle.std.specs.Prelude.{◌≡◌, ◌↔◌, IsTrue, MatchBool};
ghost use Rattle.std.specs.List.{All, Any, zip};
ghost use Rattle.bspl_types.specs.declared.protocol.Adornment.TheVariants.{In};
ghost use Rattle.bspl_types.specs.Adornment.{valued};
ghost use Rattle.bspl_types.specs.History.{history_of, instance_of, IsRun, sender_history};
ghost use Rattle.bspl_types.specs.Instance.{Fits, pairs};
ghost use Rattle.enactment_model.specs.inner.Carrying.{has_pair, HasUnknownPair, IsKnownPair};
ghost use Rattle.enactment_model.specs.inner.Carrying.{Reveals};

use bspl_types::{Adornment, Carried, Event, Expanded, Instance, Key, Value, equal_values_are_one};

/// Whether the sender knows each value that the instance has for the `in` parameter.
pub(crate) fn knows_each(x: &Expanded, events: &[Event], instance: &Instance, param: u32) -> bool
    requires run { IsRun x.now events.now }
    requires fits { Fits x.now instance.now }
    ensures { let i = instance.now in
        let history = sender_history x.now events.now i.message in
        MatchBool result (All (IsKnownPair x.now history i.key param) (pairs x.now i))
        (HasUnknownPair x.now history i.key param (pairs x.now i)) }
{
    let message = x.messages.at(instance.message as usize);
    let carried = message.carried.as_slice();
    let values = instance.values.as_slice();
    knows_all(
        x,
        events,
        message.sender,
        &instance.key,
        param,
        carried,
        values,
    )
}

/// Whether the role knows each value of the `in` parameter among these.
fn knows_all(
    x: &Expanded,
    events: &[Event],
    role: u32,
    key: &Key,
    param: u32,
    carried: &[Carried],
    values: &[Value],
) -> bool
    requires { IsRun x.now events.now }
    ensures { let history = history_of x.now role events.now in
        let pairs = zip (valued carried.now) values.now in
        MatchBool result (All (IsKnownPair x.now history key.now param) pairs)
        (HasUnknownPair x.now history key.now param pairs) }
{
    let mut remaining = values;
    for c in carried {
        if c.adornment.has_value() {
            let Some((value, rest)) = remaining.split_first() else {
                return true;
            };
            if is_in(*c, param) && !is_revealed(x, events, role, key, param, *value) {
                return false;
            }
            remaining = rest;
        }
    }
    true
}

/// Whether this is the parameter, adorned `in`.
fn is_in(c: Carried, param: u32) -> bool
    ensures { IsTrue result ↔ (c ≡ record { param = param; adornment = In }) }
{
    c.adornment == Adornment::In && c.param == param
}

/// Whether some event of the role under the key carries the parameter with the value.
fn is_revealed(
    x: &Expanded,
    events: &[Event],
    role: u32,
    key: &Key,
    param: u32,
    value: Value,
) -> bool
    requires { IsRun x.now events.now }
    ensures { IsTrue result ↔ Any (Reveals x.now role key.now param value) events.now }
{
    events
        .iter()
        .any(|event| reveals(x, event, role, key, param, value))
}

/// Whether the event is the role's, under the key, and carries the parameter with the value.
fn reveals(x: &Expanded, event: &Event, role: u32, key: &Key, param: u32, value: Value) -> bool
    requires { Fits x.now (instance_of event.now) }
    ensures { IsTrue result ↔ Reveals x.now role key.now param value event.now }
{
    // law: values that the test finds equal are one value
    equal_values_are_one();
    let instance = event.instance();
    let carried = x.messages.at(instance.message as usize).carried.as_slice();
    event.role(x) == role
        && instance.key.same(key)
        && carries(carried, instance.values.as_slice(), param, value)
}

/// Whether the parameters have the value for this one.
fn carries(carried: &[Carried], values: &[Value], param: u32, wanted: Value) -> bool
    ensures { result ≡ has_pair (zip (valued carried.now) values.now) param wanted }
{
    let mut remaining = values;
    for c in carried {
        if c.adornment.has_value() {
            let Some((value, rest)) = remaining.split_first() else {
                return false;
            };
            if c.param == param && value.same(&wanted) {
                return true;
            }
            remaining = rest;
        }
    }
    false
}
