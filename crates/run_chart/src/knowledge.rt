ghost use Rattle.std.specs.Prelude.{◌≡◌, ◌++◌, ◌&&◌, ◌||◌, is_none, IfOk, OnOk, take};
ghost use Rattle.std.specs.List.{filter, zip};
ghost use Rattle.bspl_types.specs.Adornment.{valued};
ghost use Rattle.bspl_types.specs.History.{instance_of};
ghost use Rattle.bspl_types.specs.Instance.{Fits, pairs};
ghost use Rattle.bspl_types.specs.Value.{equal_values};
ghost use Rattle.html.specs.Tables.{is_key};
ghost use Rattle.run_chart.specs.Knowledge.{field, has_enactments, has_other_key, labelled, news};
ghost use Rattle.run_chart.specs.Knowledge.{value_before};

use super::laws::shows_knowledge;
use super::shown::ShownEvent;
use bspl_types::{Carried, Event, Expanded, Instance, Value};
use html::{is_key, param_name};
use list_base::{Bytes, NoMemory, Seq};
use role_knowledge::{answers_once, knows};
use std::alloc::Global;

/// A parameter of a message and its value.
pub(crate) type Pair = (Carried, Value);

/// The parameters of the event that its role did not know before it.
pub(crate) fn news(alloc: Global, s: &ShownEvent<'_>) -> Result<Seq<Pair>, NoMemory>
    ensures { IfOk result (λ list. list ≡
        news s.now.x.now (take s.now.index s.now.run.now) s.now.event.now) }
{
    let pairs = pairs_of(alloc, s.x, s.event.instance())?;
    unknown_pairs(alloc, s, pairs.as_slice())
}

/// Those of the pairs whose parameter the event's role did not know before it.
fn unknown_pairs(alloc: Global, s: &ShownEvent<'_>, pairs: &[Pair]) -> Result<Seq<Pair>, NoMemory>
    ensures { IfOk result (λ list. list ≡ filter (λ (c, v). is_none
        (value_before s.now.x.now (take s.now.index s.now.run.now) s.now.event.now c.param))
        pairs.now) }
{
    let mut list = Seq::new(alloc);
    for pair in pairs {
        if value_before(s, pair.0.param).is_none() {
            list.push(*pair)?;
        }
    }
    Ok(list)
}

/// The parameters that the label of the event shows: those, and in a run of several enactments the
/// key too.
pub(crate) fn labelled(alloc: Global, s: &ShownEvent<'_>) -> Result<Seq<Pair>, NoMemory>
    ensures { IfOk result (λ list. list ≡
        labelled s.now.x.now s.now.run.now (take s.now.index s.now.run.now) s.now.event.now) }
{
    let pairs = pairs_of(alloc, s.x, s.event.instance())?;
    labelled_pairs(alloc, s, pairs.as_slice(), has_enactments(s.run))
}

/// Those of the pairs whose parameter the event's role did not know before it, and with `keyed` those
/// of the key.
fn labelled_pairs(
    alloc: Global,
    s: &ShownEvent<'_>,
    pairs: &[Pair],
    keyed: bool,
) -> Result<Seq<Pair>, NoMemory>
    ensures { IfOk result (λ list. list ≡ filter (λ (c, v). (keyed && is_key s.now.x.now c.param) ||
        is_none (value_before s.now.x.now (take s.now.index s.now.run.now) s.now.event.now c.param))
        pairs.now) }
{
    let mut list = Seq::new(alloc);
    for pair in pairs {
        if (keyed && is_key(s.x, pair.0.param)) || value_before(s, pair.0.param).is_none() {
            list.push(*pair)?;
        }
    }
    Ok(list)
}

/// Whether the run has more than one enactment.
fn has_enactments(run: &[Event]) -> bool
    ensures { result ≡ has_enactments run.now }
{
    match run.split_first() {
        Some((first, more)) => has_other_key(more, first),
        None => false,
    }
}

/// Whether one of the events is of another enactment than that one.
fn has_other_key(events: &[Event], event: &Event) -> bool
    ensures { result ≡ has_other_key events.now event.now }
{
    events.iter().any(|e| !has_key_of(e, event))
}

/// Whether both events are of one enactment.
fn has_key_of(event: &Event, other: &Event) -> bool
    ensures { result ≡ equal_values (instance_of event.now).key (instance_of other.now).key }
{
    event.instance().key.same(&other.instance().key)
}

/// The value of the parameter that the event's role knew from the events before it.
pub(crate) fn value_before(s: &ShownEvent<'_>, param: u32) -> Option<Value>
    ensures { result ≡
        value_before s.now.x.now (take s.now.index s.now.run.now) s.now.event.now param }
{
    // law: the value that is shown as known is the first known
    shows_knowledge();
    // law: there is one such value
    answers_once();
    let before = &s.run[..s.index];
    let role = s.event.role(s.x);
    knows(s.x, before, role, &s.event.instance().key, param)
}

/// Appends a parameter and its value.
pub(crate) fn push_field(
    words: &mut Bytes,
    x: &Expanded,
    param: u32,
    value: &Value,
) -> Result<(), NoMemory>
    ensures { OnOk result (words.new ≡ words.old ++ field x.now param value.now) }
{
    words.append(param_name(x, param))?;
    words.push(b'=')?;
    value.write(words)
}

/// Each parameter of the instance that has a value, with it.
fn pairs_of(alloc: Global, x: &Expanded, instance: &Instance) -> Result<Seq<Pair>, NoMemory>
    requires { Fits x.now instance.now }
    ensures { IfOk result (λ list. list ≡ pairs x.now instance.now) }
{
    let message = x.message_at(instance.message);
    zipped(
        alloc,
        message.carried.as_slice(),
        instance.values.as_slice(),
    )
}

/// Each of the parameters that has a value, with it.
fn zipped(alloc: Global, carried: &[Carried], values: &[Value]) -> Result<Seq<Pair>, NoMemory>
    ensures { IfOk result (λ list. list ≡ zip (valued carried.now) values.now) }
{
    let mut list = Seq::new(alloc);
    let mut remaining = values;
    for c in carried {
        if c.adornment.has_value() {
            let Some((value, rest)) = remaining.split_first() else {
                return Ok(list);
            };
            list.push((*c, *value))?;
            remaining = rest;
        }
    }
    Ok(list)
}
