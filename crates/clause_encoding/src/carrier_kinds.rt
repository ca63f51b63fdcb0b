ghost use Rattle.std.specs.Prelude.{◌≡◌, ◌++◌, ◌<◌, length, IfOk, OnOk};
ghost use Rattle.std.specs.List.{All};
ghost use Rattle.clause_encoding.specs.Carriers.{carriers, sender_carriers};
ghost use Rattle.clause_encoding.specs.inner.Chosen.{carriers_of};
ghost use Rattle.clause_encoding.specs.inner.Kinds.{IsOtherKind};

use super::kinds::{received, sent};
use super::parameters::binds;
use bspl_types::Expanded;
use list_base::{NoMemory, NumberList, Seq};
use std::alloc::Global;

/// The kinds at the role whose message adorns the parameter `in` or `out`, in order.
pub fn carriers(alloc: Global, x: &Expanded, role: u32, param: u32) -> Result<NumberList, NoMemory>
    ensures { IfOk result (λ kinds. kinds ≡ carriers x.now role param) }
{
    let mut kinds = Seq::new(alloc);
    for m in 0..x.messages.len() as u32 {
        add_carriers(&mut kinds, x, role, param, m)?;
    }
    Ok(kinds)
}

/// Appends the kinds of the message at the role, if it adorns the parameter `in` or `out`.
fn add_carriers(
    kinds: &mut NumberList,
    x: &Expanded,
    role: u32,
    param: u32,
    m: u32,
) -> Result<(), NoMemory>
    requires { m < length x.now.messages }
    ensures { OnOk result (kinds.new ≡ kinds.old ++ carriers_of x.now role param m) }
{
    let message = x.message_at(m);
    if binds(message, param) {
        if message.sender == role {
            kinds.push(sent(m))?;
        }
        if message.receiver == role {
            kinds.push(received(m))?;
        }
    }
    Ok(())
}

/// The kinds at the sender of the message, other than its own emission, whose message adorns the
/// parameter `in` or `out`.
pub(crate) fn sender_carriers(
    alloc: Global,
    x: &Expanded,
    m: u32,
    param: u32,
) -> Result<NumberList, NoMemory>
    requires { m < length x.now.messages }
    ensures exact { IfOk result (λ kinds. kinds ≡ sender_carriers x.now m param) }
    ensures others { IfOk result (All (IsOtherKind x.now m)) }
{
    let all = carriers(alloc, x, x.message_at(m).sender, param)?;
    let mut others = Seq::new(alloc);
    for kind in all.as_slice() {
        if *kind != sent(m) {
            others.push(*kind)?;
        }
    }
    Ok(others)
}
