ghost use Rattle.std.specs.Prelude.{◌≡◌, ◌<◌, List};
ghost use Rattle.adapter.specs.State.{IsStateKept};
ghost use Rattle.adapter.specs.StateSteps.{TakesOne};
ghost use Rattle.adapter.specs.Worker.{IsSameThread, worker_generator};
ghost use Rattle.reorder_net.specs.Pass.{BoxId};

use super::reception::step_take;
use super::role_state::RoleState;
use agent_scripts::{Job, Scene};
use local_store::Receipt;
use rand_core::SeedableRng;
use rand_pcg::Pcg32;
use std::marker::{Model, PhantomData};

/// A thread of a role, with the generator by which it picks envelopes. Its type keeps that the
/// generator is the worker's own: it is drawn from the one that the seed of the job that `N` names
/// gives to this thread of this role, and from no other.
#[derive(Drop)]
pub struct Worker<N: Scene> {
    role: u32,
    thread: u32,
    rng: Pcg32,
    of: PhantomData<N>,
}

impl<N: Scene> Model for Worker<N> {
    ghost use Rattle.adapter.specs.Worker.{IsDrawnFrom, WorkerState, worker_generator};

    ghost Value = { WorkerState };

    ghost view = { λ w. record { role = w.role; thread = w.thread; generator = w.rng } };

    ghost invariant = { λ w. IsDrawnFrom (worker_generator N.job w.role w.thread) w.rng };
}

impl<N: Scene> Worker<N> {
    /// The worker before its first word.
    pub fn new(job: &Job, role: u32, thread: u32) -> Worker<N>
        requires scene { N.job ≡ job.now }
        requires number { (role < 8) × (thread < 8) }
        ensures { result ≡ record {
          role = role;
          thread = thread;
          generator = worker_generator N.job role thread;
        } }
    {
        Worker {
            role,
            thread,
            rng: first_generator(job, role, thread),
            of: PhantomData,
        }
    }

    /// Whose thread it is.
    pub fn role(&self) -> u32
        ensures { result ≡ self.now.role }
    {
        self.role
    }

    /// Which of the role's threads it is, from 0.
    pub fn thread(&self) -> u32
        ensures { result ≡ self.now.thread }
    {
        self.thread
    }

    /// The state's desk takes as `step_take` does, by the worker's generator.
    pub(crate) fn take(&mut self, state: &mut RoleState, job: &Job) -> Option<Receipt>
        requires kept { (boxes : List BoxId) ×
            IsStateKept job.now state.old.desk.store.role boxes state.old }
        ensures kept { (boxes : List BoxId) →
            IsStateKept job.now state.old.desk.store.role boxes state.old →
            IsStateKept job.now state.old.desk.store.role boxes state.new }
        ensures taken { TakesOne self.old.generator state.old result
            self.new.generator state.new }
        ensures same { IsSameThread self.old self.new }
    {
        step_take(state, job, &mut self.rng)
    }
}

/// The generator of the role's thread before its first word.
fn first_generator(job: &Job, role: u32, thread: u32) -> Pcg32
    requires { (role < 8) × (thread < 8) }
    ensures { result ≡ worker_generator job.now role thread }
{
    Pcg32::seed_from_u64(job.plan().seed ^ u64::from(8 * role + thread))
}
