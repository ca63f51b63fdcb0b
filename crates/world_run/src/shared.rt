ghost use Rattle.std.specs.Prelude.{◌≡◌, ◌-◌, ◌%◌, ◌<◌, ◌≤◌, length, IfOk, IsSome};
ghost use Rattle.adapter.specs.Next.{IsWorkload};
ghost use Rattle.adapter.specs.StateSteps.{HasHadTurn};
ghost use Rattle.world_run.specs.Joined.{AreJoined};
ghost use Rattle.world_run.specs.Shared.{AreNewPasses};

use super::joined_desks::JoinedDesks;
use super::locks::{empty_desks, lock_last};
use super::opened_desks::open_desks;
use super::pace::Pace;
use super::role_lock::RoleLock;
use super::world::{DeskList, World};
use adapter::{Gate, Worker};
use agent_scripts::{Job, Scene};
use list_base::NoMemory;
use reorder_net::{Mail, PassList, Post};
use std::alloc::Global;
use std::marker::Model;
use std::sync::Wait;

/// The states of all roles, each behind a lock of its own. Workers share them by reference.
/// Contracts see how many threads each role has.
#[derive(Drop)]
pub struct Shared<'a, N: Scene, M: Mail> {
    pub(crate) job: &'a Job,
    pub(crate) post: &'a Post<N>,
    pub(crate) threads: u32,
    pub(crate) pace: Pace,
    /// A list with a place for each desk when it comes out of its lock.
    pub(crate) places: DeskList,
    pub(crate) role0: Option<RoleLock<N, M, 0>>,
    pub(crate) role1: Option<RoleLock<N, M, 1>>,
    pub(crate) role2: Option<RoleLock<N, M, 2>>,
    pub(crate) role3: Option<RoleLock<N, M, 3>>,
    pub(crate) role4: Option<RoleLock<N, M, 4>>,
    pub(crate) role5: Option<RoleLock<N, M, 5>>,
    pub(crate) role6: Option<RoleLock<N, M, 6>>,
    pub(crate) role7: Option<RoleLock<N, M, 7>>,
}

impl<'a, N: Scene, M: Mail> Model for Shared<'a, N, M> {
    ghost use Rattle.std.specs.Prelude.{◌≡◌, length};
    ghost use Rattle.world_run.specs.Shared.{SharedState};
    ghost use Rattle.world_run.specs.inner.Locks.{AreShared, HasLock};

    ghost Value = { SharedState };

    ghost view = { λ s. record { threads = s.threads } };

    ghost invariant = { λ s. (N.job ≡ s.job.now) × (s.post.now ≡ M.boxes)
        × AreShared N.job M.boxes s.threads s.places
        × HasLock 0 (length N.job.protocol.roles) s.role0
        × HasLock 1 (length N.job.protocol.roles) s.role1
        × HasLock 2 (length N.job.protocol.roles) s.role2
        × HasLock 3 (length N.job.protocol.roles) s.role3
        × HasLock 4 (length N.job.protocol.roles) s.role4
        × HasLock 5 (length N.job.protocol.roles) s.role5
        × HasLock 6 (length N.job.protocol.roles) s.role6
        × HasLock 7 (length N.job.protocol.roles) s.role7 };
}

impl<'a, N: Scene, M: Mail> Shared<'a, N, M> {
    /// A locked state for each role: a new desk with all room that a run takes, and the role's
    /// passes. An error drops the passes.
    pub fn new(
        alloc: Global,
        job: &'a Job,
        threads: u32,
        post: &'a Post<N>,
        mut passes: PassList,
    ) -> Result<Shared<'a, N, M>, NoMemory>
        requires job { N.job ≡ job.now }
        requires threads { (1 ≤ threads) × (threads ≤ 8) }
        requires post { post.now ≡ M.boxes }
        requires passes { AreNewPasses job.now post.now passes }
        ensures { IfOk result (λ s. s.threads ≡ threads) }
    {
        let workers = job.admitted().expanded().roles.len() as u64 * u64::from(threads);
        let places = empty_desks(alloc, job)?;
        let mut desks = open_desks(alloc, job)?;
        let role7 = lock_last(&mut desks, &mut passes);
        let role6 = lock_last(&mut desks, &mut passes);
        let role5 = lock_last(&mut desks, &mut passes);
        let role4 = lock_last(&mut desks, &mut passes);
        let role3 = lock_last(&mut desks, &mut passes);
        let role2 = lock_last(&mut desks, &mut passes);
        let role1 = lock_last(&mut desks, &mut passes);
        let role0 = lock_last(&mut desks, &mut passes);
        Ok(Shared {
            job,
            post,
            threads,
            pace: Pace::of(workers),
            places,
            role0,
            role1,
            role2,
            role3,
            role4,
            role5,
            role6,
            role7,
        })
    }

    /// A turn of the worker at a workload number of its share, within one holding of its role's
    /// lock. Of `T` threads, number `n` belongs to thread `(n - 1) mod T`.
    pub fn turn<W: Wait, G: Gate>(
        &self,
        rt: &W,
        n: u64,
        worker: &mut Worker<N>,
        gate: &G,
    ) -> Result<(), NoMemory>
        requires role { worker.old.role < length N.job.protocol.roles }
        requires share { (n - 1) % self.now.threads ≡ worker.old.thread }
        requires number { IsWorkload N.job n }
        ensures { HasHadTurn N.job worker.old.role M.boxes n worker.old result worker.new }
    {
        match worker.role() {
            0 => hold(rt, self, &self.role0, n, worker, gate),
            1 => hold(rt, self, &self.role1, n, worker, gate),
            2 => hold(rt, self, &self.role2, n, worker, gate),
            3 => hold(rt, self, &self.role3, n, worker, gate),
            4 => hold(rt, self, &self.role4, n, worker, gate),
            5 => hold(rt, self, &self.role5, n, worker, gate),
            6 => hold(rt, self, &self.role6, n, worker, gate),
            7 => hold(rt, self, &self.role7, n, worker, gate),
            _ => unreachable!(),
        }
    }

    /// The world of the desks, which come out of their locks. The passes to each mailbox are
    /// joined, and what its rule tells at one pop more explains the receipts. It takes no memory.
    pub fn into_world<W: Wait>(self, rt: &W) -> World
        ensures { AreJoined N.job result }
    {
        let Shared {
            job: _,
            post,
            threads: _,
            pace: _,
            places,
            role0,
            role1,
            role2,
            role3,
            role4,
            role5,
            role6,
            role7,
        } = self;
        let mut joined = JoinedDesks::of(post, places, role0);
        joined.add(post, role1);
        joined.add(post, role2);
        joined.add(post, role3);
        joined.add(post, role4);
        joined.add(post, role5);
        joined.add(post, role6);
        joined.add(post, role7);
        joined.into_world(rt, post)
    }
}

/// A turn of the worker within one holding of the lock, which is that of its role.
fn hold<N: Scene, M: Mail, W: Wait, G: Gate, const R: u32>(
    rt: &W,
    shared: &Shared<'_, N, M>,
    lock: &Option<RoleLock<N, M, R>>,
    n: u64,
    worker: &mut Worker<N>,
    gate: &G,
) -> Result<(), NoMemory>
    requires own { worker.old.role ≡ R }
    requires some { IsSome lock.now }
    requires number { IsWorkload N.job n }
    ensures { HasHadTurn N.job worker.old.role M.boxes n worker.old result worker.new }
{
    let lock = lock.as_ref().unwrap();
    lock.turn(rt, shared.job, shared.post, n, worker, gate)
}
