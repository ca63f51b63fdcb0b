ghost use Rattle.std.specs.Prelude.{◌<◌, length, IsTrue, IfOk, None};
ghost use Rattle.std.specs.List.{All, AllZip};
ghost use Rattle.bspl_types.specs.Name.{is_name};
ghost use Rattle.bspl_types.specs.Shape.{AreNamed, IsMessageOf};
ghost use Rattle.protocol_expand.specs.Canonical.{IsFormalOf, IsItemOf, IsSchemaOf};

use super::declaration::{adorn_of, word_of};
use bspl_parser::{Formal, FormalList, Item, ItemList, Schema};
use bspl_types::{Carried, Message, Name, NoMemory, ParamInfo, Seq};
use std::alloc::Global;

/// The items of a body for messages over these roles and parameters.
pub fn items_of<'x>(
    alloc: Global,
    roles: &'x [Name],
    params: &'x [ParamInfo],
    messages: &'x [Message],
) -> Result<ItemList<'x>, NoMemory>
    requires roles { AreNamed (λ name. name) roles.now }
    requires params { AreNamed (λ p. p.name) params.now }
    requires named { All (λ m. IsTrue (is_name m.name)) messages.now }
    requires placed { All (IsMessageOf (length roles.now) (length params.now)) messages.now }
    ensures { IfOk result (AllZip (IsItemOf roles.now params.now) messages.now) }
{
    let mut items = Seq::new(alloc);
    for m in messages {
        let schema = schema_of(alloc, roles, params, m)?;
        items.push(Item::Message(schema))?;
    }
    Ok(items)
}

/// The schema of a message.
fn schema_of<'x>(
    alloc: Global,
    roles: &'x [Name],
    params: &'x [ParamInfo],
    m: &'x Message,
) -> Result<Schema<'x>, NoMemory>
    requires roles { AreNamed (λ name. name) roles.now }
    requires params { AreNamed (λ p. p.name) params.now }
    requires named { IsTrue (is_name m.now.name) }
    requires placed { IsMessageOf (length roles.now) (length params.now) m.now }
    ensures { IfOk result (IsSchemaOf roles.now params.now m.now) }
{
    Ok(Schema {
        sender: word_of(&roles[m.sender as usize]),
        receiver: word_of(&roles[m.receiver as usize]),
        name: word_of(&m.name),
        params: formals_of(alloc, params, m.carried.as_slice())?,
    })
}

/// The parameters of a message.
fn formals_of<'x>(
    alloc: Global,
    params: &'x [ParamInfo],
    carried: &[Carried],
) -> Result<FormalList<'x>, NoMemory>
    requires params { AreNamed (λ p. p.name) params.now }
    requires placed { All (λ c. c.param < length params.now) carried.now }
    ensures { IfOk result (AllZip (IsFormalOf params.now) carried.now) }
{
    let mut formals = Seq::new(alloc);
    for c in carried {
        formals.push(formal_of(params, *c))?;
    }
    Ok(formals)
}

/// One parameter of a message.
fn formal_of(params: &[ParamInfo], c: Carried) -> Formal<'_>
    requires params { AreNamed (λ p. p.name) params.now }
    requires placed { c.param < length params.now }
    ensures { IsFormalOf params.now c result }
{
    Formal {
        adorn: adorn_of(c.adornment),
        offset: 0,
        name: word_of(&params[c.param as usize].name),
        key: None,
    }
}
