ghost use Rattle.std.specs.Prelude.{OnOk};
ghost use Rattle.world_run.specs.Course.{AreTurns, IsRound, state};
ghost use Rattle.world_run.specs.inner.Idle.{AreIdle, IsIdleRole};
ghost use Rattle.world_run.specs.inner.InProgress.{Extend};
ghost use Rattle.world_run.specs.inner.Steps.{AreAtPlay, IsAtPlay, IsStepOr, PlaysToEnd};

use super::steps::turn;
use super::world::DeskList;
use agent_scripts::Job;
use list_base::NoMemory;
use rand_pcg::Pcg32;

/// The agents take and emit in turn until nothing is held and nothing can be emitted.
// What all steps ask and keep stands in records. A struct of the desks, the job and the generator
// would owe a clause on its borrow of the desks at each call, and could not keep that the desks are
// whole, since that ends with an error.
pub fn play(desks: &mut DeskList, job: &Job, rng: &mut Pcg32) -> Result<(), NoMemory>
    requires { AreAtPlay job.now desks.old }
    ensures extend { Extend job.now desks.old desks.new }
    ensures ok { OnOk result
        (PlaysToEnd job.now (state desks.old rng.old) (state desks.new rng.new)) }
{
    'rounds: loop {
        let acted = round(desks, job, rng)?;
        if !acted {
            return Ok(());
        }
    }
}

/// Each role has its turns once. Answers whether any agent did anything.
fn round(desks: &mut DeskList, job: &Job, rng: &mut Pcg32) -> Result<bool, NoMemory>
    requires { AreAtPlay job.now desks.old }
    ensures { IsStepOr job.now desks.old result desks.new (AreIdle job.now desks.new)
        (IsRound job.now (state desks.old rng.old) (state desks.new rng.new)) }
{
    let mut acted = false;
    for role in 0..desks.len() {
        acted |= turns(desks, job, role, rng)?;
    }
    Ok(acted)
}

/// The role has a turn at each workload number. Answers whether its agent did anything.
fn turns(desks: &mut DeskList, job: &Job, role: usize, rng: &mut Pcg32) -> Result<bool, NoMemory>
    requires { IsAtPlay job.now desks.old role }
    ensures { IsStepOr job.now desks.old result desks.new (IsIdleRole job.now desks.new role)
        (AreTurns job.now role (state desks.old rng.old) (state desks.new rng.new)) }
{
    let mut acted = false;
    for index in 0..job.script().count() {
        acted |= turn(desks, job, role, index + 1, rng)?;
    }
    Ok(acted)
}
