use super::hold::Hold;
use super::parcel::Parcel;
use crossbeam_queue::SegPass;
use list_base::Seq;
use std::marker::Model;

/// What one agent knows of a mailbox. It has no bytes. Contracts see the mailbox and the lists.
#[derive(Drop)]
pub struct MailPass {
    pub(crate) seat: SegPass<Parcel, Hold>,
}

impl Model for MailPass {
    ghost use Rattle.std.specs.Prelude.{◌≡◌, None};
    ghost use Rattle.reorder_net.specs.Pass.{PassState};

    ghost Value = { PassState };

    ghost view = { λ p. record {
      box = record { web = p.seat.web; heap = p.seat.heap };
      hold = p.seat.me.view.client;
    } };

    ghost invariant = { λ p. (p.seat.me.hand ≡ None) × (p.seat.me.spare ≡ None) };
}

/// The passes of one role.
#[derive(Drop)]
pub struct RolePasses {
    /// One to each mailbox, by which the role puts, in the order of the roles.
    pub puts: Seq<MailPass>,
    /// One to the role's own mailbox, by which it takes.
    pub own: MailPass,
}

/// The passes of each role, in order.
pub type PassList = Seq<RolePasses>;

/// One pass to each mailbox, with the lists of several roles.
pub type Gathered = Seq<MailPass>;
