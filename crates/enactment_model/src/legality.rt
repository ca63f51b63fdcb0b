ghost use Rattle.std.specs.Prelude.{◌≡◌, ◌≢◌, ◌↔◌, IfErr, IfSome, IsOk, IsSome};
ghost use Rattle.std.specs.List.{All};
ghost use Rattle.bspl_types.specs.declared.protocol.Adornment.TheVariants.{In};
ghost use Rattle.bspl_types.specs.History.{instance_of, IsRun, sender_history};
ghost use Rattle.bspl_types.specs.Expansion.{message_of};
ghost use Rattle.bspl_types.specs.Instance.{Fits};
ghost use Rattle.bspl_types.specs.Knowledge.{IsEnabled, IsKnown};
ghost use Rattle.role_knowledge.specs.FirstKnown.{IsFirstKnown};
ghost use Rattle.enactment_model.specs.BadEvent.{IsAllowed, IsFirstBadEvent, IsFirstReason};
ghost use Rattle.enactment_model.specs.BadEvent.{IsReasonOf, MayNotFollow};
ghost use Rattle.enactment_model.specs.Legal.{IsLegal, MayFollow};

use super::bad_event::{BadEvent, Why};
use super::known_values::knows_each;
use super::occurrence::is_emitted;
use bspl_types::{Adornment, Carried, Event, Expanded, Instance, Value};
use role_knowledge::knows;

/// Checks that each event may follow those before it: what is emitted is enabled in its sender's
/// history, and what is received was emitted. The answer names the first event that may not.
///
/// It takes no memory.
pub fn legal(x: &Expanded, run: &[Event]) -> Result<(), BadEvent>
    requires fits { IsRun x.now run.now }
    ensures exact { IsOk result ↔ IsLegal x.now run.now }
    ensures bad { IfErr result (IsFirstBadEvent x.now run.now) }
{
    for (index, event) in run.iter().enumerate() {
        if let Err(why) = may_follow(x, &run[..index], event) {
            return Err(BadEvent {
                place: index + 1,
                why,
            });
        }
    }
    Ok(())
}

/// Checks that the event may follow the events before it. The answer says why it may not.
///
/// It takes no memory.
pub fn may_follow(x: &Expanded, before: &[Event], event: &Event) -> Result<(), Why>
    requires run { IsRun x.now before.now }
    requires fits { Fits x.now (instance_of event.now) }
    ensures exact { IsOk result ↔ MayFollow x.now before.now event.now }
    ensures why { IfErr result (MayNotFollow x.now before.now event.now) }
{
    match event {
        Event::Emit(instance) => check_emission(x, before, instance),
        Event::Receive(instance) => {
            if is_emitted(before, instance) {
                Ok(())
            } else {
                Err(Why::Unsent)
            }
        }
    }
}

/// Checks that the instance is enabled in its sender's history. The answer names the first
/// parameter that is not allowed.
fn check_emission(x: &Expanded, before: &[Event], instance: &Instance) -> Result<(), Why>
    requires run { IsRun x.now before.now }
    requires fits { Fits x.now instance.now }
    ensures exact { let i = instance.now in
        IsOk result ↔ IsEnabled x.now (sender_history x.now before.now i.message) i }
    ensures why { let i = instance.now in
        let history = sender_history x.now before.now i.message in
        IfErr result (IsFirstReason x.now history i (message_of x.now i.message).carried) }
{
    let message = x.messages.at(instance.message as usize);
    check_all(x, before, instance, message.carried.as_slice())
}

/// Checks each of the parameters.
fn check_all(
    x: &Expanded,
    before: &[Event],
    instance: &Instance,
    carried: &[Carried],
) -> Result<(), Why>
    requires run { IsRun x.now before.now }
    requires fits { Fits x.now instance.now }
    ensures exact { let i = instance.now in
        let history = sender_history x.now before.now i.message in
        IsOk result ↔ All (IsAllowed x.now history i) carried.now }
    ensures why { let i = instance.now in
        let history = sender_history x.now before.now i.message in
        IfErr result (IsFirstReason x.now history i carried.now) }
{
    for c in carried {
        check_param(x, before, instance, *c)?;
    }
    Ok(())
}

/// Checks that the sender's knowledge allows the parameter, with the instance's value.
fn check_param(x: &Expanded, before: &[Event], instance: &Instance, c: Carried) -> Result<(), Why>
    requires run { IsRun x.now before.now }
    requires fits { Fits x.now instance.now }
    ensures exact { let i = instance.now in
        IsOk result ↔ IsAllowed x.now (sender_history x.now before.now i.message) i c }
    ensures why { let i = instance.now in
        IfErr result (IsReasonOf x.now (sender_history x.now before.now i.message) i c) }
{
    match c.adornment {
        Adornment::In => check_known(x, before, instance, c),
        Adornment::Out | Adornment::Nil => check_unknown(x, before, instance, c),
    }
}

/// Checks that the sender knows the parameter, with the instance's value.
fn check_known(x: &Expanded, before: &[Event], instance: &Instance, c: Carried) -> Result<(), Why>
    requires run { IsRun x.now before.now }
    requires fits { Fits x.now instance.now }
    requires adorned { c.adornment ≡ In }
    ensures exact { let i = instance.now in
        IsOk result ↔ IsAllowed x.now (sender_history x.now before.now i.message) i c }
    ensures why { let i = instance.now in
        IfErr result (IsReasonOf x.now (sender_history x.now before.now i.message) i c) }
{
    let Some(kept) = first_known(x, before, instance, c.param) else {
        return Err(Why::Missing { param: c.param });
    };
    if knows_each(x, before, instance, c.param) {
        Ok(())
    } else {
        Err(Why::Other {
            param: c.param,
            kept,
        })
    }
}

/// Checks that the sender does not know the parameter.
fn check_unknown(x: &Expanded, before: &[Event], instance: &Instance, c: Carried) -> Result<(), Why>
    requires run { IsRun x.now before.now }
    requires fits { Fits x.now instance.now }
    requires adorned { c.adornment ≢ In }
    ensures exact { let i = instance.now in
        IsOk result ↔ IsAllowed x.now (sender_history x.now before.now i.message) i c }
    ensures why { let i = instance.now in
        IfErr result (IsReasonOf x.now (sender_history x.now before.now i.message) i c) }
{
    match first_known(x, before, instance, c.param) {
        Some(kept) => Err(Why::Bound {
            param: c.param,
            kept,
        }),
        None => Ok(()),
    }
}

/// The first value of the parameter that the sender knows.
fn first_known(x: &Expanded, before: &[Event], instance: &Instance, param: u32) -> Option<Value>
    requires run { IsRun x.now before.now }
    requires fits { Fits x.now instance.now }
    ensures exact { let i = instance.now in
        IsSome result ↔ IsKnown x.now (sender_history x.now before.now i.message) i.key param }
    ensures first { let i = instance.now in
        IfSome result (IsFirstKnown x.now (sender_history x.now before.now i.message) i.key param) }
{
    let message = x.messages.at(instance.message as usize);
    knows(x, before, message.sender, &instance.key, param)
}
