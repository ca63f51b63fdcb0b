ghost use Rattle.std.specs.Prelude.{◌≡◌, ℕ, ◌<◌, ◌≤◌, length, slice_get, Some, true};
ghost use Rattle.std.specs.Prelude.{IfOk, OnOk, OnErr, MatchOption};
ghost use Rattle.reorder_net.specs.declared.passes.RolePasses.{RolePasses};
ghost use Rattle.reorder_net.specs.Mail.{IsPosted};
ghost use Rattle.reorder_net.specs.Pass.{IsSender, PassState};
ghost use Rattle.reorder_net.specs.Passes.{AreFresh, with_put, with_taken};

use super::mailbox::Mailbox;
use super::parcel::Parcel;
use super::passes::{PassList, RolePasses};
use super::steps::{put, take};
use super::stock::{deal_role, open_boxes};
use agent_scripts::Scene;
use list_base::{NoMemory, Seq};
use std::alloc::Global;
use std::marker::{Brand, Model};
use std::sync::Wait;

/// The mailboxes of all roles, in order. Contracts see which mailboxes they are.
#[derive(Drop)]
pub struct Post<N: Scene> {
    boxes: Seq<Mailbox<N>>,
}

impl<N: Scene> Model for Post<N> {
    ghost use Rattle.std.specs.Prelude.{List};
    ghost use Rattle.reorder_net.specs.Pass.{BoxId};

    ghost Value = { List BoxId };

    ghost view = { λ p. p.boxes };
}

/// What names mailboxes: a type with a parameter `M: Mail` belongs to the mailboxes that `M` names.
pub trait Mail {
    ghost use Rattle.std.specs.Prelude.{List};
    ghost use Rattle.reorder_net.specs.Pass.{BoxId};

    ghost boxes: { List BoxId };
}

/// A call that names mailboxes passes `Brand`. If the call names none, it is an empty list.
impl Mail for Brand {
    ghost use Rattle.std.specs.Prelude.{[]};

    ghost boxes = { [] };
}

impl<N: Scene> Post<N> {
    /// A mailbox for each role, and the passes of each role.
    pub fn new(alloc: Global, roles: u32) -> Result<(Post<N>, PassList), NoMemory>
        requires { (1 ≤ roles) × (roles ≤ 8) }
        ensures roles { IfOk result (λ r. (length r.0 ≡ roles) × (length r.1 ≡ roles)) }
        ensures fresh { IfOk result (λ r. (role : ℕ) (p : RolePasses) →
            slice_get r.1 role ≡ Some p → AreFresh r.0 role p) }
    {
        let (boxes, mut wholes) = open_boxes::<N>(alloc, roles)?;
        let mut list = Seq::new(alloc);
        for role in 0..boxes.len() {
            list.push(deal_role(alloc, &boxes, &mut wholes, role)?)?;
        }
        Ok((Post { boxes }, list))
    }

    /// Lends the mailbox of the role.
    pub(crate) fn at(&self, role: usize) -> &Mailbox<N>
        requires { role < length self.now }
        ensures { slice_get self.now role ≡ Some result.now }
    {
        self.boxes.at(role)
    }

    /// Puts the envelope of the parcel into its receiver's mailbox. An error puts nothing: memory ran
    /// out, or the mailbox has taken 2^62 envelopes.
    pub fn put<R: Wait>(&self, rt: &R, passes: &mut RolePasses, e: Parcel) -> Result<(), NoMemory>
        requires known { (e.to < length self.now) × (length passes.old.puts ≡ length self.now) }
        requires pass { (p : PassState) → slice_get passes.old.puts e.to ≡ Some p →
            (slice_get self.now e.to ≡ Some p.box) × IsSender e.to e.from p }
        requires posted { IsPosted N.job e.from e.to e }
        ensures ok { OnOk result ((p : PassState) → slice_get passes.old.puts e.to ≡ Some p →
            passes.new ≡ with_put passes.old p e) }
        ensures err { OnErr result (passes.new ≡ passes.old) }
    {
        let q = e.envelope().to as usize;
        match put(rt, self.at(q), passes.puts.at_mut(q), e) {
            Ok(()) => Ok(()),
            Err(_) => Err(NoMemory),
        }
    }

    /// Takes the parcel at the front of the role's own mailbox, if that holds any.
    pub fn take<R: Wait>(&self, rt: &R, passes: &mut RolePasses, role: u32) -> Option<Parcel>
        requires known { role < length self.now }
        requires pass { slice_get self.now role ≡ Some passes.old.own.box }
        requires takes { passes.old.own.hold.takes ≡ true }
        ensures { MatchOption result (passes.new ≡ passes.old) (λ e.
            (passes.new ≡ with_taken passes.old e)
            × IsPosted N.job e.from passes.old.own.hold.home e) }
    {
        take(rt, self.at(role as usize), &mut passes.own)
    }
}
