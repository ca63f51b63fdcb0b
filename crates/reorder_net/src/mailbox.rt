use super::hold::Hold;
use super::parcel::Parcel;
use agent_scripts::Scene;
use crossbeam_queue::RuledSegQueue;
use crossbeam_queue::protocol::Protocol as QueueRule;
use std::marker::{Model, PhantomData};

/// The rule of each mailbox of the job that `N` names.
pub struct MailRule<N: Scene> {
    of: PhantomData<N>,
}

impl<N: Scene> QueueRule<Parcel, Hold> for MailRule<N> {
    ghost use Rattle.reorder_net.specs.Mail.{IsMail};
    ghost use Rattle.reorder_net.specs.inner.Moves.{first_hold};

    ghost holds = { IsMail N.job };

    ghost first = { first_hold };
}

/// The queue of a mailbox.
pub type MailQueue<N> = RuledSegQueue<Parcel, Hold, MailRule<N>>;

/// The envelopes on their way to one role. Contracts see which mailbox it is.
pub struct Mailbox<N: Scene> {
    pub(crate) queue: MailQueue<N>,
}

impl<N: Scene> Model for Mailbox<N> {
    ghost use Rattle.reorder_net.specs.Pass.{BoxId};

    ghost Value = { BoxId };

    ghost view = { λ m. m.queue };
}

impl<N: Scene> Drop for Mailbox<N> {
    fn drop(self) {
        let Self { queue } = self;
        queue.destroy();
    }
}
