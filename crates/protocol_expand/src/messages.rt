ghost use Rattle.std.specs.Prelude.{◌≡◌, ◌<◌, ◌^◌, length, IfOk, Some};
ghost use Rattle.std.specs.List.{All, AllZip, Contains};
ghost use Rattle.std.specs.Str.{bytes_eq};
ghost use Rattle.protocol_expand.specs.FlatExpansion.{role_index, IsCarried, IsMessageFor};
ghost use Rattle.protocol_expand.specs.inner.KnownNames.{IsKnownFormal, IsKnownMessage};

use super::flat_expansion::adornment_of;
use super::param_names::param_index;
use bspl_parser::{Formal, Schema};
use bspl_types::{Carried, CarriedList, Message, MessageList, Name, NoMemory, ParamInfo, Seq};
use std::alloc::Global;

/// The messages of the schemas, whose names are declared.
pub(crate) fn messages_of(
    alloc: Global,
    roles: &[Name],
    params: &[ParamInfo],
    schemas: &[Schema],
) -> Result<MessageList, NoMemory>
    requires few_roles { length roles.now < 2 ^ 32 }
    requires few_params { length params.now < 2 ^ 32 }
    requires known { All (IsKnownMessage roles.now params.now) schemas.now }
    ensures { IfOk result (AllZip (IsMessageFor roles.now params.now) schemas.now) }
{
    let mut messages = Seq::new(alloc);
    for schema in schemas {
        messages.push(message_for(alloc, roles, params, schema)?)?;
    }
    Ok(messages)
}

/// The message of a schema, whose names are declared.
fn message_for(
    alloc: Global,
    roles: &[Name],
    params: &[ParamInfo],
    schema: &Schema,
) -> Result<Message, NoMemory>
    requires few_roles { length roles.now < 2 ^ 32 }
    requires few_params { length params.now < 2 ^ 32 }
    requires known { IsKnownMessage roles.now params.now schema.now }
    ensures { IfOk result (IsMessageFor roles.now params.now schema.now) }
{
    Ok(Message {
        name: Seq::from_slice(alloc, schema.name.text.as_slice())?,
        sender: role_index(roles, schema.sender.text.as_slice()),
        receiver: role_index(roles, schema.receiver.text.as_slice()),
        carried: all_carried(alloc, params, schema.params.as_slice())?,
    })
}

/// The first index of the role's name, which is declared.
fn role_index(roles: &[Name], name: &[u8]) -> u32
    requires few { length roles.now < 2 ^ 32 }
    requires known { Contains roles.now name.now }
    ensures { role_index roles.now name.now ≡ Some result }
{
    let mut index = 0;
    while !is_named(&roles[index], name) {
        index += 1;
    }
    index as u32
}

/// Whether the role has the name.
fn is_named(role: &Name, name: &[u8]) -> bool
    ensures { result ≡ bytes_eq role.now name.now }
{
    role.as_slice() == name
}

/// The parameters that a message carries, all of them declared and supported.
fn all_carried(
    alloc: Global,
    params: &[ParamInfo],
    formals: &[Formal],
) -> Result<CarriedList, NoMemory>
    requires few { length params.now < 2 ^ 32 }
    requires known { All (IsKnownFormal params.now) formals.now }
    ensures { IfOk result (AllZip (IsCarried params.now) formals.now) }
{
    let mut all = Seq::new(alloc);
    for formal in formals {
        all.push(carried(params, formal))?;
    }
    Ok(all)
}

/// One parameter that a message carries. It is declared and supported.
fn carried(params: &[ParamInfo], formal: &Formal) -> Carried
    requires few { length params.now < 2 ^ 32 }
    requires known { IsKnownFormal params.now formal.now }
    ensures { IsCarried params.now formal.now result }
{
    Carried {
        param: param_index(params, formal.name.text.as_slice()) as u32,
        adornment: adornment_of(formal.adorn),
    }
}
