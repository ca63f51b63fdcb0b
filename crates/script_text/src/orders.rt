ghost use Rattle.std.specs.Prelude.{◌≡◌, ◌==◌, ◌<◌, not, IfOk};
ghost use Rattle.std.specs.List.{filter, flat_map, list_any};
ghost use Rattle.agent_scripts.specs.StatedScript.{order_in, order_of, orders_given, sent_by};
ghost use Rattle.agent_scripts.specs.ScriptText.{statements_of};

use agent_scripts::{Stated, Statement};
use bspl_types::{Expanded, NoMemory, NumberList, Seq};
use std::alloc::Global;

/// For each role the messages that it sends, in the order in which it tries them.
pub(crate) fn orders_of(
    alloc: Global,
    x: &Expanded,
    stated: &[Stated],
) -> Result<Seq<NumberList>, NoMemory>
    ensures { IfOk result (λ orders. orders ≡ orders_given x.now (statements_of stated.now)) }
{
    let mut orders = Seq::new(alloc);
    for role in 0..x.roles.len() {
        orders.push(order_of(alloc, x, stated, role as u32)?)?;
    }
    Ok(orders)
}

/// The messages that the role sends: first those of its order, then the others.
fn order_of(
    alloc: Global,
    x: &Expanded,
    stated: &[Stated],
    role: u32,
) -> Result<NumberList, NoMemory>
    ensures { IfOk result (λ order. order ≡ order_of x.now (statements_of stated.now) role) }
{
    let mut order = ordered_messages(alloc, stated, role)?;
    let others = other_messages(alloc, x, role, order.as_slice())?;
    order.append(others.as_slice())?;
    Ok(order)
}

/// The messages of the role's `order` line.
fn ordered_messages(alloc: Global, stated: &[Stated], role: u32) -> Result<NumberList, NoMemory>
    ensures { IfOk result (λ order.
        order ≡ flat_map (order_in role) (statements_of stated.now)) }
{
    let mut order = Seq::new(alloc);
    for s in stated {
        if let Statement::Order(other, messages) = &s.statement {
            if *other == role {
                order.append(messages.as_slice())?;
            }
        }
    }
    Ok(order)
}

/// The messages that the role sends, without the first ones, in the protocol's order.
fn other_messages(
    alloc: Global,
    x: &Expanded,
    role: u32,
    first: &[u32],
) -> Result<NumberList, NoMemory>
    ensures { IfOk result (λ others. others
        ≡ filter (λ m. not (list_any (λ n. n == m) first.now)) (sent_by x.now role)) }
{
    let mut others = Seq::new(alloc);
    for (index, message) in x.messages.as_slice().iter().enumerate() {
        let m = index as u32;
        if message.sender == role && !has_message(first, m) {
            others.push(m)?;
        }
    }
    Ok(others)
}

/// Whether the message is among them.
fn has_message(messages: &[u32], m: u32) -> bool
    ensures { result ≡ list_any (λ n. n == m) messages.now }
{
    messages.iter().any(|n| *n == m)
}
