ghost use Rattle.std.specs.Prelude.{◌≡◌, ◌<◌, length, replicate, slice_get, Some};
ghost use Rattle.bspl_types.specs.Limits.{role_limit};
ghost use Rattle.world_run.specs.World.{AreDesksOfOne};

use super::joined_desks::JoinedCounts;
use adapter::Desk;
use list_base::Seq;
use std::marker::Model;

/// Desks, in order of their roles.
pub type DeskList = Seq<Desk>;

/// The desks of all roles of one protocol. If threads have played it, the world also tells how many
/// entries each store had when they were joined.
#[derive(Drop)]
pub struct World {
    pub(crate) desks: DeskList,
    pub(crate) joined: JoinedCounts,
}

impl Model for World {
    ghost use Rattle.world_run.specs.World.{AreDesksOfOne, WorldState};

    ghost Value = { WorldState };

    ghost view = { λ w. record { desks = w.desks; joined = w.joined } };

    ghost invariant = { λ w. AreDesksOfOne w.desks };
}

impl World {
    /// The world of these desks, which no threads have played.
    pub fn of(states: DeskList) -> World
        requires { AreDesksOfOne states }
        ensures { result ≡ record { desks = states; joined = replicate role_limit 0 } }
    {
        World {
            desks: states,
            joined: JoinedCounts::none(),
        }
    }

    /// Lends the desk of the role.
    pub fn state(&self, role: u32) -> &Desk
        requires { role < length self.now.desks }
        ensures desk { slice_get self.now.desks role ≡ Some result.now }
        ensures desks { AreDesksOfOne self.now.desks }
    {
        self.desks.at(role as usize)
    }

    /// How many entries the role's store had when the threads were joined: 0 if no threads have
    /// played the world.
    pub fn joined(&self, role: u32) -> u32
        requires { role < length self.now.desks }
        ensures { slice_get self.now.joined role ≡ Some result }
    {
        self.joined.of(role)
    }
}
