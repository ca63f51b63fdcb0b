ghost use Rattle.std.specs.Prelude.{◌≡◌, OnErr, OnOk};
ghost use Rattle.adapter.specs.Next.{IsWorkload};
ghost use Rattle.adapter.specs.State.{IsStateKept};
ghost use Rattle.adapter.specs.StateSteps.{IsCutOff, IsRoleTurn};

use super::gate::Gate;
use super::intake::drain;
use super::posted_emission::step_emit;
use super::role_state::RoleState;
use super::worker::Worker;
use agent_scripts::{Job, Scene};
use list_base::NoMemory;
use reorder_net::{Mail, Post};
use std::marker::{Model, PhantomData};
use std::sync::Wait;

/// What stands behind the lock of role `R`. Whoever takes the lock knows the type alone, so the
/// type keeps the fact: the state is kept for the job that `N` names, for the role, and for the
/// mailboxes that `M` names.
#[derive(Drop)]
pub struct Locked<N: Scene, M: Mail, const R: u32> {
    state: RoleState,
    of: PhantomData<(N, M)>,
}

impl<N: Scene, M: Mail, const R: u32> Model for Locked<N, M, R> {
    ghost use Rattle.adapter.specs.State.{IsStateKept, StateView};

    ghost Value = { StateView };

    ghost view = { λ l. l.state };

    ghost invariant = { λ l. IsStateKept N.job R M.boxes l.state };
}

impl<N: Scene, M: Mail, const R: u32> Locked<N, M, R> {
    /// The kept state, as it goes behind the lock.
    pub fn of(state: RoleState) -> Locked<N, M, R>
        requires { IsStateKept N.job R M.boxes state }
        ensures { result ≡ state }
    {
        Locked {
            state,
            of: PhantomData,
        }
    }

    /// The worker's turn at the workload number, in one holding of its role's lock: the gate is
    /// passed, the mailbox is drained, one envelope is received, and one message is emitted. An error
    /// cuts the turn off, and leaves what was done.
    pub fn turn<W: Wait, G: Gate>(
        &mut self,
        rt: &W,
        job: &Job,
        post: &Post<N>,
        n: u64,
        worker: &mut Worker<N>,
        gate: &G,
    ) -> Result<(), NoMemory>
        requires scene { (N.job ≡ job.now) × (post.now ≡ M.boxes) }
        requires own { worker.old.role ≡ R }
        requires number { IsWorkload job.now n }
        ensures kept { IsStateKept N.job R M.boxes self.old }
        ensures ok { OnOk result (IsRoleTurn N.job n worker.old self.old worker.new self.new) }
        ensures err { OnErr result (IsCutOff worker.old self.old worker.new self.new) }
    {
        gate.at(R, worker.thread());
        drain(rt, &mut self.state, job, post)?;
        worker.take(&mut self.state, job);
        step_emit(rt, &mut self.state, job, n, post)?;
        Ok(())
    }

    /// The state, as it comes out of the lock.
    pub fn into_state(self) -> RoleState
        ensures same { result ≡ self }
        ensures kept { IsStateKept N.job R M.boxes result }
    {
        let Locked { state, of: _ } = self;
        state
    }
}
