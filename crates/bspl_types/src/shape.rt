ghost use Rattle.std.specs.Prelude.{◌≡◌, ◌≢◌, ◌↔◌, ◌<◌, ◌^◌, length, IsTrue, IfOk, None};
ghost use Rattle.std.specs.List.{All};
ghost use Rattle.bspl_types.specs.Shape.{IsDeclared, IsMessageOf, IsWellFormed, IsWithinLimits};
ghost use Rattle.bspl_types.specs.Shape.{key_indices, is_public_value};

use super::limits::{CARRIED_LIMIT, KEY_LIMIT, MESSAGE_LIMIT, PARAM_LIMIT, ROLE_LIMIT};
use super::named::are_named;
use super::names::is_name;
use super::protocol::{Carried, Message, ParamInfo};
use super::{Name, NumberList, Seq};
use list_base::NoMemory;
use std::alloc::Global;

/// Whether an expansion may have these parts, of which `keys` are the indices of the keys.
pub fn is_well_formed(
    name: &[u8],
    roles: &[Name],
    params: &[ParamInfo],
    public: u32,
    keys: &[u32],
    messages: &[Message],
) -> bool
    requires { keys.now ≡ key_indices params.now }
    ensures { IsTrue result ↔
        IsWellFormed name.now roles.now params.now public keys.now messages.now }
{
    let role_count = roles.len();
    let param_count = params.len();
    // The limits come first, since names are compared pair by pair.
    is_within_limits(role_count, param_count, keys.len(), messages.len())
        && role_count > 0
        && is_name(name)
        && are_named(roles)
        && are_named(params)
        && are_named(messages)
        && is_declared(public as usize, params)
        && are_messages_of(role_count, param_count, messages)
}

/// Whether exactly the first `public` parameters are public, and each key is adorned `in` or `out`.
fn is_declared(public: usize, params: &[ParamInfo]) -> bool
    ensures { IsTrue result ↔ IsDeclared public params.now }
{
    if public == 0 || params.len() < public {
        return false;
    }
    let (first, rest) = params.split_at(public);
    are_adorned(first) && are_bare(rest) && are_public_values(params)
}

/// Whether each is adorned.
fn are_adorned(params: &[ParamInfo]) -> bool
    ensures { IsTrue result ↔ All (λ p. p.adornment ≢ None) params.now }
{
    params.iter().all(|p| p.adornment.is_some())
}

/// Whether none is adorned.
fn are_bare(params: &[ParamInfo]) -> bool
    ensures { IsTrue result ↔ All (λ p. p.adornment ≡ None) params.now }
{
    params.iter().all(|p| p.adornment.is_none())
}

/// Whether each key is public, and adorned `in` or `out`.
fn are_public_values(params: &[ParamInfo]) -> bool
    ensures { IsTrue result ↔
        All (λ p. IsTrue p.key → IsTrue (is_public_value p.adornment)) params.now }
{
    params.iter().all(|p| !p.key || p.is_public_value())
}

/// The indices of the parameters that are marked as keys.
pub fn key_indices(alloc: Global, params: &[ParamInfo]) -> Result<NumberList, NoMemory>
    requires { length params.now < 2 ^ 32 }
    ensures { IfOk result (λ keys. keys ≡ key_indices params.now) }
{
    let mut keys = Seq::new(alloc);
    for (index, p) in params.iter().enumerate() {
        if p.key {
            keys.push(index as u32)?;
        }
    }
    Ok(keys)
}

/// Whether the roles and parameters of each message exist, and it carries as many as it may.
fn are_messages_of(roles: usize, params: usize, messages: &[Message]) -> bool
    ensures { IsTrue result ↔ All (IsMessageOf roles params) messages.now }
{
    messages.iter().all(|m| is_message_of(roles, params, m))
}

/// Whether its roles and parameters exist, and it carries as many as it may.
fn is_message_of(roles: usize, params: usize, m: &Message) -> bool
    ensures { IsTrue result ↔ IsMessageOf roles params m.now }
{
    let carried = m.carried.as_slice();
    (m.sender as usize) < roles
        && (m.receiver as usize) < roles
        && have_params(params, carried)
        && !carried.is_empty()
        && carried.len() <= CARRIED_LIMIT
}

/// Whether each parameter exists.
fn have_params(params: usize, carried: &[Carried]) -> bool
    ensures { IsTrue result ↔ All (λ c. c.param < params) carried.now }
{
    carried.iter().all(|c| (c.param as usize) < params)
}

/// Whether each count is within its limit.
fn is_within_limits(roles: usize, params: usize, keys: usize, messages: usize) -> bool
    ensures { IsTrue result ↔ IsWithinLimits roles params keys messages }
{
    roles <= ROLE_LIMIT && params <= PARAM_LIMIT && keys <= KEY_LIMIT && messages <= MESSAGE_LIMIT
}
