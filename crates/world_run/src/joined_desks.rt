ghost use Rattle.std.specs.Prelude.{◌≡◌, ◌+◌, ◌<◌, length, min, replicate, slice_get, slice_set};
ghost use Rattle.std.specs.Prelude.{Some};
ghost use Rattle.bspl_types.specs.Limits.{role_limit};
ghost use Rattle.world_run.specs.Joined.{AreJoined};
ghost use Rattle.world_run.specs.inner.Locks.{HasLock};

use super::laws::told_histories_explain;
use super::role_lock::RoleLock;
use super::world::{DeskList, World};
use adapter::Desk;
use agent_scripts::Scene;
use bspl_types::ROLE_LIMIT;
use reorder_net::{Gathered, Mail, Post};
use std::marker::{Model, PhantomData};
use std::sync::Wait;

/// How many entries each role's store had when its desk came out of its lock, or 0 if it was in none.
/// Nobody can count later: the field is this module's, where desks come out of their locks.
#[derive(Drop)]
pub struct JoinedCounts {
    counts: [u32; ROLE_LIMIT],
}

impl Model for JoinedCounts {
    ghost use Rattle.std.specs.Prelude.{◌≡◌, ℕ, List, length};
    ghost use Rattle.bspl_types.specs.Limits.{role_limit};

    ghost Value = { List ℕ };

    ghost view = { λ c. c.counts };

    ghost invariant = { λ c. length c.counts ≡ role_limit };
}

impl JoinedCounts {
    /// Those of desks that were in no locks.
    pub fn none() -> JoinedCounts
        ensures { result ≡ replicate role_limit 0 }
    {
        JoinedCounts {
            counts: [0; ROLE_LIMIT],
        }
    }

    /// That of the role.
    pub fn of(&self, role: u32) -> u32
        requires { role < role_limit }
        ensures { slice_get self.now role ≡ Some result }
    {
        self.counts[role as usize]
    }
}

/// The desks of the first roles, out of their locks, and the passes of these roles, joined by
/// mailbox. Contracts see how many roles they are.
#[derive(Drop)]
pub struct JoinedDesks<N: Scene, M: Mail> {
    count: u32,
    places: DeskList,
    joined: JoinedCounts,
    passes: Gathered,
    of: PhantomData<(N, M)>,
}

impl<N: Scene, M: Mail> Model for JoinedDesks<N, M> {
    ghost use Rattle.std.specs.Prelude.{ℕ};
    ghost use Rattle.world_run.specs.inner.Released.{HaveJoined};

    ghost Value = { ℕ };

    ghost view = { λ c. c.count };

    ghost invariant = { λ c. HaveJoined N.job M.boxes c.count c.places c.joined c.passes };
}

impl<N: Scene, M: Mail> JoinedDesks<N, M> {
    /// The desk and the passes of the first role, which each protocol has.
    pub fn of(
        post: &Post<N>,
        mut places: DeskList,
        lock: Option<RoleLock<N, M, 0>>,
    ) -> JoinedDesks<N, M>
        requires post { post.now ≡ M.boxes }
        requires places { length places ≡ length N.job.protocol.roles }
        requires lock { HasLock 0 (length N.job.protocol.roles) lock }
        ensures { result ≡ min 1 (length N.job.protocol.roles) }
    {
        let (desk, passes) = lock.unwrap().into_state().close();
        let passes = post.first(passes);
        let mut joined = JoinedCounts::none();
        put_desk(&mut places, &mut joined, 0, desk);
        JoinedDesks {
            count: 1,
            places,
            joined,
            passes,
            of: PhantomData,
        }
    }

    /// Adds those of role `R`, if it has a lock. It takes no memory.
    pub fn add<const R: u32>(&mut self, post: &Post<N>, lock: Option<RoleLock<N, M, R>>)
        requires post { post.now ≡ M.boxes }
        requires lock { HasLock R (length N.job.protocol.roles) lock }
        requires next { (0 < R) × (self.old ≡ min R (length N.job.protocol.roles)) }
        ensures { self.new ≡ min (R + 1) (length N.job.protocol.roles) }
    {
        let Some(lock) = lock else {
            return;
        };
        let (desk, passes) = lock.into_state().close();
        post.gather(&mut self.passes, passes, R);
        put_desk(&mut self.places, &mut self.joined, R as usize, desk);
        self.count = R + 1;
    }

    /// The world of all roles' desks. The rule of each mailbox tells its pass what explains the
    /// receipts.
    pub fn into_world<W: Wait>(self, rt: &W, post: &Post<N>) -> World
        requires post { post.now ≡ M.boxes }
        requires all { self ≡ length N.job.protocol.roles }
        ensures { AreJoined N.job result }
    {
        // law: what the rules of all mailboxes tell explains all receipts
        told_histories_explain();
        let JoinedDesks {
            count: _,
            places,
            joined,
            passes,
            of: _,
        } = self;
        post.tell(rt, passes);
        World {
            desks: places,
            joined,
        }
    }
}

/// Puts the role's desk into its place, and the number of its entries into that of the role.
fn put_desk(places: &mut DeskList, joined: &mut JoinedCounts, role: usize, desk: Desk)
    requires role { role < length places.old }
    requires joined { role < role_limit }
    ensures places { places.new ≡ slice_set places.old role desk }
    ensures joined { joined.new ≡ slice_set joined.old role (length desk.store.entries) }
{
    joined.counts[role] = desk.store().len();
    places.replace(role, desk);
}
