ghost use Rattle.std.specs.Prelude.{◌≡◌, ◌≢◌, ◌↔◌, ℕ, ◌<◌, length, IsTrue, MatchOption};
ghost use Rattle.std.specs.List.{Contains};
ghost use Rattle.bspl_types.specs.declared.protocol.Adornment.TheVariants.{Out};
ghost use Rattle.agent_scripts.specs.Statement.{param_field};
ghost use Rattle.agent_scripts.specs.Statement.{IsSentBy, IsFreeOut};
ghost use Rattle.bspl_types.specs.Expansion.{message_name, role_name};

use bspl_types::{Adornment, Carried, Expanded, index_of};

/// The role of that name.
pub(crate) fn role_of(x: &Expanded, name: &[u8]) -> Option<u32>
    ensures { MatchOption result
        ((role : ℕ) → role < length x.now.roles → name.now ≢ role_name x.now role)
        (λ role. (role < length x.now.roles) × (name.now ≡ role_name x.now role)) }
{
    let index = index_of(x.roles.as_slice(), name)?;
    Some(index as u32)
}

/// The message of that name.
pub(crate) fn message_of(x: &Expanded, name: &[u8]) -> Option<u32>
    ensures { MatchOption result
        ((m : ℕ) → m < length x.now.messages → name.now ≢ message_name x.now m)
        (λ m. (m < length x.now.messages) × (name.now ≡ message_name x.now m)) }
{
    let index = index_of(x.messages.as_slice(), name)?;
    Some(index as u32)
}

/// The message of that name, if the role sends it.
pub(crate) fn sent_message(x: &Expanded, role: u32, name: &[u8]) -> Option<u32>
    ensures { MatchOption result
        ((m : ℕ) → IsSentBy x.now role m → name.now ≢ message_name x.now m)
        (λ m. IsSentBy x.now role m × (name.now ≡ message_name x.now m)) }
{
    let message = message_of(x, name)?;
    if x.messages.at(message as usize).sender == role {
        Some(message)
    } else {
        None
    }
}

/// The parameter of that name, if the message gives its value.
pub(crate) fn free_out(x: &Expanded, message: u32, name: &[u8]) -> Option<u32>
    requires { message < length x.now.messages }
    ensures { MatchOption result
        ((p : ℕ) → IsFreeOut x.now message p → name.now ≢ param_field x.now p)
        (λ p. IsFreeOut x.now message p × (name.now ≡ param_field x.now p)) }
{
    let param = param_of(x, name)?;
    let carried = x.messages.at(message as usize).carried.as_slice();
    if is_free(x.keys.as_slice(), carried, param) {
        Some(param)
    } else {
        None
    }
}

/// The parameter of that name.
fn param_of(x: &Expanded, name: &[u8]) -> Option<u32>
    ensures { MatchOption result
        ((p : ℕ) → p < length x.now.params → name.now ≢ param_field x.now p)
        (λ p. (p < length x.now.params) × (name.now ≡ param_field x.now p)) }
{
    let index = index_of(x.params.as_slice(), name)?;
    Some(index as u32)
}

/// Whether the parameter is adorned `out` and is no key.
fn is_free(keys: &[u32], carried: &[Carried], param: u32) -> bool
    ensures { IsTrue result ↔
        (Contains carried.now (record { param = param; adornment = Out })
        × ¬ Contains keys.now param) }
{
    is_out(carried, param) && !is_key(keys, param)
}

/// Whether the parameter is adorned `out`.
fn is_out(carried: &[Carried], param: u32) -> bool
    ensures { IsTrue result ↔ Contains carried.now (record { param = param; adornment = Out }) }
{
    carried.iter().any(|c| c.param == param && matches!(c.adornment, Adornment::Out))
}

/// Whether the parameter is a key.
fn is_key(keys: &[u32], param: u32) -> bool
    ensures { IsTrue result ↔ Contains keys.now param }
{
    keys.contains(&param)
}
