ghost use Rattle.std.specs.Prelude.{◌↔◌, ◌<◌, length, IfErr, IsOk};
ghost use Rattle.std.specs.List.{All};
ghost use Rattle.bspl_types.specs.Expansion.{message_of};
ghost use Rattle.bspl_types.specs.History.{history_of, IsRun};
ghost use Rattle.bspl_types.specs.Knowledge.{CanEmit};
ghost use Rattle.role_knowledge.specs.Blocked.{IsBlockOf, IsFirstBlock, IsPermitted};

use super::block::Block;
use super::knowledge::knows;
use bspl_types::{Adornment, Carried, Event, Expanded, Key};

/// Checks that the sender can emit the message under the key, in its own history: it knows each
/// `in` parameter, and no `out` and no `nil` parameter (Singh 2011). The answer names the first
/// parameter, in the message's order, that the sender's knowledge does not permit.
///
/// Events are those of all roles, in order. The message is an index in the protocol's messages. It
/// takes no memory.
pub fn enabled(x: &Expanded, events: &[Event], message: u32, key: &Key) -> Result<(), Block>
    requires fits { IsRun x.now events.now }
    requires known { message < length x.now.messages }
    ensures exact { let sender = (message_of x.now message).sender in
        IsOk result ↔ CanEmit x.now (history_of x.now sender events.now) message key.now }
    ensures blocked { let schema = message_of x.now message in
        let history = history_of x.now schema.sender events.now in
        IfErr result (IsFirstBlock x.now history key.now schema.carried) }
{
    let schema = x.message_at(message);
    check_all(x, events, schema.sender, key, schema.carried.as_slice())
}

/// Checks each parameter. The answer names the first one that the role's knowledge does not permit.
fn check_all(
    x: &Expanded,
    events: &[Event],
    role: u32,
    key: &Key,
    carried: &[Carried],
) -> Result<(), Block>
    requires { IsRun x.now events.now }
    ensures exact { IsOk result ↔
        All (IsPermitted x.now (history_of x.now role events.now) key.now) carried.now }
    ensures blocked { IfErr result
        (IsFirstBlock x.now (history_of x.now role events.now) key.now carried.now) }
{
    for c in carried {
        check_param(x, events, role, key, *c)?;
    }
    Ok(())
}

/// Checks that the role's knowledge of the parameter is as the adornment demands.
fn check_param(
    x: &Expanded,
    events: &[Event],
    role: u32,
    key: &Key,
    c: Carried,
) -> Result<(), Block>
    requires { IsRun x.now events.now }
    ensures exact { IsOk result ↔
        IsPermitted x.now (history_of x.now role events.now) key.now c }
    ensures blocked { IfErr result
        (IsBlockOf x.now (history_of x.now role events.now) key.now c) }
{
    match (c.adornment, knows(x, events, role, key, c.param)) {
        (Adornment::In, None) => Err(Block::Missing { param: c.param }),
        (Adornment::Out | Adornment::Nil, Some(kept)) => Err(Block::Bound {
            param: c.param,
            kept,
        }),
        (_, _) => Ok(()),
    }
}
