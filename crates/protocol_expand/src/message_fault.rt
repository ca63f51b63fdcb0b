ghost use Rattle.std.specs.Prelude.{◌≡◌, ◌<◌, ◌↔◌, length, IfOk, IfErr};
ghost use Rattle.std.specs.Prelude.{IsOk, IsTrue, MatchOption};
ghost use Rattle.std.specs.List.{All, Any};
ghost use Rattle.bspl_types.specs.Admission.{IsAdmittedMessage};
ghost use Rattle.bspl_types.specs.Adornment.{Binds};
ghost use Rattle.protocol_expand.specs.NotAdmitted.{HasDistinctParams, IsFirstRepeatedParam};
ghost use Rattle.protocol_expand.specs.NotAdmitted.{IsFirstMissing, IsMessageRefusal};
ghost use Rattle.protocol_expand.specs.NotAdmitted.{IsNameOfParam, RefusesMessage};

use bspl_types::{Carried, Message, Name, NoMemory, ParamInfo, Refusal, TryClone};

/// Checks each message. The refusal is that of the first one that is not admitted.
#[tactic(auto, using(crate::proofs::Refused::refused_at))]
pub fn check_all(keys: &[u32], params: &[ParamInfo], messages: &[Message]) -> Result<(), Refusal>
    requires keys_exist { All (λ k. k < length params.now) keys.now }
    requires carried_exist { let count = length params.now in
        All (λ m. All (λ c. c.param < count) m.carried) messages.now }
    ensures exact { IsOk result ↔ All (IsAdmittedMessage keys.now) messages.now }
    ensures refused { IfErr result (RefusesMessage keys.now params.now messages.now) }
{
    for message in messages {
        check(keys, params, message)?;
    }
    Ok(())
}

/// Checks the message: its roles, then a repeated parameter, then the key. Only a refusal takes
/// memory.
#[tactic(auto, using(crate::proofs::OneReason::repeated_is_not_admitted, crate::proofs::OneReason::missing_is_not_admitted))]
fn check(keys: &[u32], params: &[ParamInfo], m: &Message) -> Result<(), Refusal>
    requires keys_exist { All (λ k. k < length params.now) keys.now }
    requires carried_exist { All (λ c. c.param < length params.now) m.now.carried }
    ensures exact { IsOk result ↔ IsAdmittedMessage keys.now m.now }
    ensures refused { IfErr result (IsMessageRefusal keys.now params.now m.now) }
{
    if m.sender == m.receiver {
        let message = m.name.try_clone()?;
        return Err(Refusal::SelfMessage { message });
    }
    if let Some(param) = repeated_param(m) {
        let message = m.name.try_clone()?;
        let param = name_of(params, param)?;
        return Err(Refusal::RepeatedParam { message, param });
    }
    if let Some(param) = missing_key(keys, m) {
        let message = m.name.try_clone()?;
        let param = name_of(params, param)?;
        return Err(Refusal::NotWholeKey { message, param });
    }
    Ok(())
}

/// A copy of the parameter's name.
fn name_of(params: &[ParamInfo], param: u32) -> Result<Name, NoMemory>
    requires { param < length params.now }
    ensures { IfOk result (IsNameOfParam params.now param) }
{
    params[param as usize].name.try_clone()
}

/// The first parameter of the message that equals one before it.
fn repeated_param(m: &Message) -> Option<u32>
    ensures { MatchOption result
        (HasDistinctParams m.now.carried) (IsFirstRepeatedParam m.now.carried) }
{
    first_repeated(m.carried.as_slice())
}

/// The first key that the message does not bind.
fn missing_key(keys: &[u32], m: &Message) -> Option<u32>
    ensures { MatchOption result
        (All (Binds m.now.carried) keys.now) (IsFirstMissing m.now.carried keys.now) }
{
    first_missing(m.carried.as_slice(), keys)
}

/// The first parameter that equals one before it.
#[tactic(auto, using(crate::proofs::Firsts::first_repeated, crate::proofs::Firsts::distinct_more))]
fn first_repeated(carried: &[Carried]) -> Option<u32>
    ensures { MatchOption result
        (HasDistinctParams carried.now) (IsFirstRepeatedParam carried.now) }
{
    for (index, c) in carried.iter().enumerate() {
        if has_param(&carried[..index], c.param) {
            return Some(c.param);
        }
    }
    None
}

/// Whether the parameter is among these.
fn has_param(carried: &[Carried], param: u32) -> bool
    ensures { IsTrue result ↔ Any (λ c. c.param ≡ param) carried.now }
{
    carried.iter().any(|c| c.param == param)
}

/// The first key that is not bound.
#[tactic(auto, using(crate::proofs::Firsts::first_missing, crate::proofs::Firsts::all_passed))]
fn first_missing(carried: &[Carried], keys: &[u32]) -> Option<u32>
    ensures { MatchOption result
        (All (Binds carried.now) keys.now) (IsFirstMissing carried.now keys.now) }
{
    for key in keys {
        if !binds(carried, *key) {
            return Some(*key);
        }
    }
    None
}

/// Whether the parameter is among these, adorned `in` or `out`.
fn binds(carried: &[Carried], param: u32) -> bool
    ensures { IsTrue result ↔ Binds carried.now param }
{
    carried
        .iter()
        .any(|c| c.param == param && c.adornment.has_value())
}
