ghost use Rattle.std.specs.Prelude.{◌≡◌, ◌≤◌, ◌==◌, ◌&&◌, length, IfOk};
ghost use Rattle.std.specs.List.{list_any};
ghost use Rattle.bspl_types.specs.Adornment.{has_value};
ghost use Rattle.bspl_types.specs.Choice.{is_out};
ghost use Rattle.clause_encoding.specs.Carriers.{binds, fresh_parameters, in_parameters, is_in};
ghost use Rattle.clause_encoding.specs.Rest.{public_values};
ghost use Rattle.clause_encoding.specs.Rivals.{produces};

use bspl_types::{Adornment, Carried, Expanded, Message};
use list_base::{NoMemory, NumberList, Seq};
use std::alloc::Global;

/// The public parameters adorned `in` or `out`, in order.
pub fn public_values(alloc: Global, x: &Expanded) -> Result<NumberList, NoMemory>
    ensures exact { IfOk result (λ params. params ≡ public_values x.now) }
    ensures few { IfOk result (λ params. length params ≤ 64) }
{
    let mut params = Seq::new(alloc);
    for param in 0..x.public {
        if x.params.at(param as usize).is_public_value() {
            params.push(param)?;
        }
    }
    Ok(params)
}

/// The parameters that the message adorns `in`, in its order.
pub(crate) fn in_parameters(alloc: Global, message: &Message) -> Result<NumberList, NoMemory>
    ensures { IfOk result (λ params. params ≡ in_parameters message.now) }
{
    let mut params = Seq::new(alloc);
    for c in message.carried.as_slice() {
        if is_in(c.adornment) {
            params.push(c.param)?;
        }
    }
    Ok(params)
}

/// The parameters that the message adorns `out` or `nil`, in its order.
pub(crate) fn fresh_parameters(alloc: Global, message: &Message) -> Result<NumberList, NoMemory>
    ensures { IfOk result (λ params. params ≡ fresh_parameters message.now) }
{
    let mut params = Seq::new(alloc);
    for c in message.carried.as_slice() {
        if !is_in(c.adornment) {
            params.push(c.param)?;
        }
    }
    Ok(params)
}

/// Whether the message adorns the parameter `in` or `out`.
pub fn binds(message: &Message, param: u32) -> bool
    ensures { result ≡ binds message.now param }
{
    has_value_for(message.carried.as_slice(), param)
}

/// Whether the parameter is among these, adorned `in` or `out`.
fn has_value_for(carried: &[Carried], param: u32) -> bool
    ensures { result ≡ list_any (λ c. has_value c.adornment && c.param == param) carried.now }
{
    carried
        .iter()
        .any(|c| c.adornment.has_value() && c.param == param)
}

/// Whether the message adorns the parameter `out`.
pub(crate) fn produces(message: &Message, param: u32) -> bool
    ensures { result ≡ produces message.now param }
{
    let carried = message.carried.as_slice();
    carried
        .iter()
        .any(|c| is_out(c.adornment) && c.param == param)
}

/// Whether the adornment is `in`.
fn is_in(adornment: Adornment) -> bool
    ensures { result ≡ is_in adornment }
{
    match adornment {
        Adornment::In => true,
        Adornment::Out | Adornment::Nil => false,
    }
}

/// Whether the adornment is `out`.
fn is_out(adornment: Adornment) -> bool
    ensures { result ≡ is_out adornment }
{
    match adornment {
        Adornment::Out => true,
        Adornment::In | Adornment::Nil => false,
    }
}
