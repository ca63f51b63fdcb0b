//! How the lists of new mailboxes are dealt to the roles.

ghost use Rattle.std.specs.Prelude.{◌≡◌, ◌+◌, ◌<◌, ◌≤◌, length, IfOk, OnOk};
ghost use Rattle.reorder_net.specs.Passes.{AreFresh};
ghost use Rattle.reorder_net.specs.inner.Stock.{AreFreshPuts, AreStocks};

use super::mailbox::Mailbox;
use super::passes::{MailPass, RolePasses};
use super::steps::{leave, open, part};
use agent_scripts::Scene;
use list_base::{NoMemory, Seq};
use std::alloc::Global;

/// A mailbox for each role, and a pass to each mailbox, which has all its lists.
pub(crate) fn open_boxes<N: Scene>(
    alloc: Global,
    roles: u32,
) -> Result<(Seq<Mailbox<N>>, Seq<MailPass>), NoMemory>
    ensures count { IfOk result (λ r. length r.0 ≡ roles) }
    ensures stocks { IfOk result (λ r. AreStocks r.0 0 (λ _. 0) r.1) }
{
    let mut boxes = Seq::new(alloc);
    let mut wholes = Seq::new(alloc);
    for home in 0..roles {
        let (mailbox, whole) = open::<N>(alloc, home)?;
        boxes.push(mailbox)?;
        wholes.push(whole)?;
    }
    Ok((boxes, wholes))
}

/// The passes of the next role: a list of each mailbox, and what is taken of its own.
pub(crate) fn deal_role<N: Scene>(
    alloc: Global,
    boxes: &Seq<Mailbox<N>>,
    wholes: &mut Seq<MailPass>,
    role: usize,
) -> Result<RolePasses, NoMemory>
    requires role { (role < length boxes.now) × (length boxes.now ≤ 8) }
    requires stocks { AreStocks boxes.now role (λ _. role) wholes.old }
    ensures stocks { OnOk result (AreStocks boxes.now (role + 1) (λ _. role + 1) wholes.new) }
    ensures fresh { IfOk result (AreFresh boxes.now role) }
{
    let own = leave(boxes.at(role), wholes.at_mut(role));
    let puts = deal_puts(alloc, boxes, wholes, role)?;
    Ok(RolePasses { puts, own })
}

/// A list of each mailbox, in a pass of its own.
fn deal_puts<N: Scene>(
    alloc: Global,
    boxes: &Seq<Mailbox<N>>,
    wholes: &mut Seq<MailPass>,
    role: usize,
) -> Result<Seq<MailPass>, NoMemory>
    requires role { role < 8 }
    requires stocks { AreStocks boxes.now (role + 1) (λ _. role) wholes.old }
    ensures stocks { OnOk result (AreStocks boxes.now (role + 1) (λ _. role + 1) wholes.new) }
    ensures fresh { IfOk result (AreFreshPuts boxes.now role) }
{
    let mut puts = Seq::new(alloc);
    for q in 0..boxes.len() {
        puts.push(part(boxes.at(q), wholes.at_mut(q)))?;
    }
    Ok(puts)
}
