ghost use Rattle.std.specs.Prelude.{◌≡◌};

use super::desk::Desk;
use local_store::Store;
use reorder_net::{Inbox, RolePasses, Spares};
use std::marker::Model;

/// The state of one role while the agents run in threads: its desk, and its passes to the
/// mailboxes of all roles.
#[derive(Drop)]
pub struct RoleState {
    pub(crate) desk: Desk,
    pub(crate) passes: RolePasses,
    /// The parcels of what came in, for what goes out.
    pub(crate) spares: Spares,
}

impl Model for RoleState {
    ghost use Rattle.adapter.specs.State.{StateView};

    ghost Value = { StateView };

    ghost view = { λ s. record { desk = s.desk; passes = s.passes } };
}

impl RoleState {
    /// A state with these parts.
    pub fn open(desk: Desk, passes: RolePasses) -> RoleState
        ensures { result ≡ record { desk = desk; passes = passes } }
    {
        let spares = Spares::new(desk.inbox.allocator());
        RoleState {
            desk,
            passes,
            spares,
        }
    }

    /// The state's parts.
    pub fn close(self) -> (Desk, RolePasses)
        ensures { (result.0 ≡ self.desk) × (result.1 ≡ self.passes) }
    {
        let RoleState {
            desk,
            passes,
            spares: _,
        } = self;
        (desk, passes)
    }

    /// The store of the desk.
    pub fn store(&self) -> &Store
        ensures { result.now ≡ self.now.desk.store }
    {
        self.desk.store()
    }

    /// The envelopes that can be taken.
    pub fn inbox(&self) -> &Inbox
        ensures { result.now ≡ self.now.desk.inbox }
    {
        self.desk.inbox()
    }
}
