ghost use Rattle.adapter.specs.Next.{IsWorkload};
ghost use Rattle.world_run.specs.Course.{EmitsByAgent, IsTurn, TakesPicked, state};
ghost use Rattle.world_run.specs.inner.Idle.{EmitsNothing, HoldsNothing, IsIdleRoleAt};
ghost use Rattle.world_run.specs.inner.InProgress.{Extend};
ghost use Rattle.world_run.specs.inner.Steps.{IsAtPlay, IsStep, IsStepOr};

use super::world::DeskList;
use adapter::{deliver, desk_emit, desk_take};
use agent_scripts::Job;
use list_base::NoMemory;
use rand_pcg::Pcg32;
use stamped_history::extended_stay_explained;

/// The role's agent takes one envelope, which the generator picks, and then emits one message at
/// the workload number. Answers whether it did anything.
pub fn turn(
    desks: &mut DeskList,
    job: &Job,
    role: usize,
    n: u64,
    rng: &mut Pcg32,
) -> Result<bool, NoMemory>
    requires at_play { IsAtPlay job.now desks.old role }
    requires number { IsWorkload job.now n }
    ensures { IsStepOr job.now desks.old result desks.new (IsIdleRoleAt job.now desks.new role n)
        (IsTurn job.now role n (state desks.old rng.old) (state desks.new rng.new)) }
{
    let taken = take(desks, job, role, rng);
    let emitted = emit(desks, job, role, n)?;
    Ok(taken | emitted)
}

/// The role's agent takes one of the envelopes that it holds.
fn take(desks: &mut DeskList, job: &Job, role: usize, rng: &mut Pcg32) -> bool
    requires { IsAtPlay job.now desks.old role }
    ensures extend { Extend job.now desks.old desks.new }
    ensures step { IsStep job.now desks.old result desks.new (HoldsNothing desks.new role)
        (TakesPicked role (state desks.old rng.old) (state desks.new rng.new)) }
{
    // law: one entry more leaves all receipts explained
    extended_stay_explained();
    desk_take(desks.at_mut(role), job, rng).is_some()
}

/// The role's agent emits at the workload number, and the envelope goes to its receiver.
fn emit(desks: &mut DeskList, job: &Job, role: usize, n: u64) -> Result<bool, NoMemory>
    requires at_play { IsAtPlay job.now desks.old role }
    requires number { IsWorkload job.now n }
    ensures { IsStepOr job.now desks.old result desks.new (EmitsNothing job.now desks.new role n)
        (EmitsByAgent job.now role n desks.old desks.new) }
{
    // law: one entry more leaves all receipts explained
    extended_stay_explained();
    let Some(envelope) = desk_emit(desks.at_mut(role), job, n) else {
        return Ok(false);
    };
    deliver(desks.at_mut(envelope.to as usize), job, envelope)?;
    Ok(true)
}
