ghost use Rattle.std.specs.Prelude.{◌≡◌};

use local_store::Store;
use reorder_net::Inbox;
use std::marker::Model;

/// The state of one role: its store, and the envelopes that it can take.
#[derive(Drop)]
pub struct Desk {
    pub(crate) store: Store,
    pub(crate) inbox: Inbox,
}

impl Model for Desk {
    ghost use Rattle.adapter.specs.Desk.{DeskState};

    ghost Value = { DeskState };

    ghost view = { λ a. record { store = a.store; inbox = a.inbox } };
}

impl Desk {
    /// A desk with these parts.
    pub fn of(store: Store, inbox: Inbox) -> Desk
        ensures { result ≡ record { store = store; inbox = inbox } }
    {
        Desk { store, inbox }
    }

    /// The store.
    pub fn store(&self) -> &Store
        ensures { result.now ≡ self.now.store }
    {
        &self.store
    }

    /// The envelopes that can be taken.
    pub fn inbox(&self) -> &Inbox
        ensures { result.now ≡ self.now.inbox }
    {
        &self.inbox
    }

    /// Puts the inbox in place of the desk's own, which it answers.
    pub fn swap_inbox(&mut self, inbox: Inbox) -> Inbox
        ensures given { result ≡ self.old.inbox }
        ensures placed { self.new ≡ record self.old { inbox = inbox } }
    {
        std::mem::replace(&mut self.inbox, inbox)
    }
}
