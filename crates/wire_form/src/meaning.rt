ghost use Rattle.std.specs.Prelude.{◌≡◌, ◌≢◌, ◌==◌, ◌<◌, ◌≤◌, ℕ, List, length, MatchOption};
ghost use Rattle.std.specs.List.{filter, list_any};
ghost use Rattle.bspl_types.specs.Choice.{is_chosen};
ghost use Rattle.bspl_types.specs.Expansion.{message_name};
ghost use Rattle.wire_form.specs.declared.act.Act.{Act as SpecAct};
ghost use Rattle.wire_form.specs.Meaning.{Means};
ghost use Rattle.wire_form.specs.Request.{IsNumbered, emit, receive};
ghost use Rattle.wire_form.specs.Texts.{texts_of};
ghost use Rattle.wire_form.specs.inner.Arriving.{IsArriving};
ghost use Rattle.wire_form.specs.inner.Asked.{fields_of, request_of};

use super::act::Act;
use super::asked::{Asked, AskedEmission, AskedReceipt};
use super::member_values::{given_values, spelled_values};
use bspl_types::{Admitted, Adornment, Carried, Expanded, Key, Stamped, Values, index_of};
use role_journal::instance_with;

/// What is asked for, as an act of the role, if it means one.
pub(crate) fn act_of(a: &Admitted, role: u32, asked: &Asked<'_>) -> Option<Act>
    requires { IsNumbered (request_of asked.now) }
    ensures { MatchOption result
        ((act : SpecAct) → ¬ Means a.now role (request_of asked.now) act)
        (Means a.now role (request_of asked.now)) }
{
    match asked {
        Asked::Receipt(receipt) => arrival_of(a, role, receipt),
        Asked::Emission(emission) => attempt_of(a.expanded(), role, emission),
    }
}

/// The message that is to be received.
fn arrival_of(a: &Admitted, role: u32, asked: &AskedReceipt<'_>) -> Option<Act>
    requires { asked.now.number < 4294967296 }
    ensures { MatchOption result
        ((act : SpecAct) → ¬ Means a.now role (receive asked.now.message.now asked.now.number
        asked.now.stamp (fields_of asked.now.fields.items)) act)
        (Means a.now role (receive asked.now.message.now asked.now.number
        asked.now.stamp (fields_of asked.now.fields.items))) }
{
    let (message, values) = arriving(a.expanded(), role, asked)?;
    Some(Act::Arrival(Stamped {
        instance: instance_with(a, message, &values),
        stamp: asked.stamp,
        number: asked.number as u32,
    }))
}

/// Which message is to be received, and its values.
fn arriving(x: &Expanded, role: u32, asked: &AskedReceipt<'_>) -> Option<(u32, Values)>
    ensures { MatchOption result
        ((act : SpecAct) → ¬ Means x.now role (receive asked.now.message.now asked.now.number
        asked.now.stamp (fields_of asked.now.fields.items)) act)
        (λ found. IsArriving x.now role asked.now.message.now
        (fields_of asked.now.fields.items) found.0 found.1) }
{
    let Some(message) = message_named(x, asked.message) else {
        return None;
    };
    let schema = x.message_at(message);
    if schema.receiver != role {
        return None;
    }
    let values = given_values(x, schema.carried.as_slice(), asked.fields.as_slice())?;
    if asked.fields.len() != values.len() {
        return None;
    }
    Some((message, values))
}

/// The emission that is to be tried.
fn attempt_of(x: &Expanded, role: u32, asked: &AskedEmission<'_>) -> Option<Act>
    requires { 0 < length x.now.keys }
    ensures { MatchOption result
        ((act : SpecAct) → ¬ Means x.now role (emit (texts_of asked.now.key.items)
        asked.now.message.now (texts_of asked.now.outs.items)) act)
        (Means x.now role (emit (texts_of asked.now.key.items)
        asked.now.message.now (texts_of asked.now.outs.items))) }
{
    let Some(message) = message_named(x, asked.message) else {
        return None;
    };
    let schema = x.message_at(message);
    if schema.sender != role {
        return None;
    }
    if asked.key.len() != x.keys.len() {
        return None;
    }
    if asked.outs.len() != count_chosen(x.keys.as_slice(), schema.carried.as_slice()) {
        return None;
    }
    let key = spelled_values(asked.key.as_slice())?;
    let outs = spelled_values(asked.outs.as_slice())?;
    Some(Act::Attempt {
        message,
        key: Key::of(key.as_slice()),
        outs,
    })
}

/// The message of the name.
fn message_named(x: &Expanded, name: &str) -> Option<u32>
    ensures { MatchOption result
        ((m : ℕ) → m < length x.now.messages → message_name x.now m ≢ name.now)
        (λ m. (m < length x.now.messages) × (message_name x.now m ≡ name.now)) }
{
    let Some(index) = index_of(x.messages.as_slice(), name.as_bytes()) else {
        return None;
    };
    Some(index as u32)
}

/// How many of the parameters are adorned `out` and are no keys.
#[tactic(auto, using(crate::proofs::ActLemmas::filter_few))]
fn count_chosen(keys: &[u32], carried: &[Carried]) -> usize
    ensures count { result ≡ length (filter (is_chosen keys.now) carried.now) }
    ensures few { result ≤ length carried.now }
{
    carried.iter().filter(|c| is_chosen(keys, **c)).count()
}

/// Whether the parameter is adorned `out` and is no key.
fn is_chosen(keys: &[u32], c: Carried) -> bool
    ensures { result ≡ is_chosen keys.now c }
{
    matches!(c.adornment, Adornment::Out) && !is_key(keys, c.param)
}

/// Whether the parameter is a key.
fn is_key(keys: &[u32], param: u32) -> bool
    ensures { result ≡ list_any (λ key. key == param) keys.now }
{
    keys.iter().any(|key| *key == param)
}
