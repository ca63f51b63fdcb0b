ghost use Rattle.std.specs.Prelude.{◌≡◌};
ghost use Rattle.adapter.specs.Next.{IsWorkload};
ghost use Rattle.adapter.specs.State.{IsStateKept};
ghost use Rattle.adapter.specs.StateSteps.{HasHadTurn};

use adapter::{Gate, Locked, RoleState, Worker};
use agent_scripts::{Job, Scene};
use list_base::NoMemory;
use reorder_net::{Mail, Post};
use std::sync::{Mutex, MutexGuard, Wait};
use std::thread::yield_now;

/// How often a thread looks for a free lock before it sleeps.
const LOCK_LOOKS: u32 = 100;

/// The state of role `R` behind its lock. A worker comes to the state by `turn` alone, which gives
/// the lock back before it returns: so nobody holds two locks, and no lock is held between turns.
#[derive(Drop)]
pub struct RoleLock<N: Scene, M: Mail, const R: u32> {
    lock: Mutex<Locked<N, M, R>>,
}

impl<N: Scene, M: Mail, const R: u32> RoleLock<N, M, R> {
    /// The kept state behind a new lock.
    pub fn of(state: RoleState) -> RoleLock<N, M, R>
        requires { IsStateKept N.job R M.boxes state }
    {
        RoleLock {
            lock: Mutex::new(Locked::of(state)),
        }
    }

    /// One turn of a worker of the role at the workload number, within one holding of the lock.
    pub fn turn<W: Wait, G: Gate>(
        &self,
        rt: &W,
        job: &Job,
        post: &Post<N>,
        n: u64,
        worker: &mut Worker<N>,
        gate: &G,
    ) -> Result<(), NoMemory>
        requires scene { (N.job ≡ job.now) × (post.now ≡ M.boxes) }
        requires own { worker.old.role ≡ R }
        requires number { IsWorkload job.now n }
        ensures { HasHadTurn N.job worker.old.role M.boxes n worker.old result worker.new }
    {
        let mut state = take_soon(rt, &self.lock);
        state.turn(rt, job, post, n, worker, gate)
    }

    /// The state, as it comes out of the lock for good.
    pub fn into_state(self) -> RoleState
        ensures kept { IsStateKept N.job R M.boxes result }
    {
        self.lock.into_inner().into_state()
    }
}

/// Takes the lock. A thread that finds it held lets others run and looks again, and sleeps only
/// after many looks: a turn is shorter than it takes to wake a thread.
fn take_soon<'b, T, W: Wait>(rt: &W, lock: &'b Mutex<T>) -> MutexGuard<'b, T> {
    for _look in 0..LOCK_LOOKS {
        if let Some(guard) = lock.try_lock() {
            return guard;
        }
        yield_now();
    }
    lock.lock(rt)
}
