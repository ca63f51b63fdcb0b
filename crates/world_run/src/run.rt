ghost use Rattle.std.specs.Prelude.{◌≡◌, replicate, IfOk, OnOk};
ghost use Rattle.bspl_types.specs.Limits.{role_limit};
ghost use Rattle.enactment_model.specs.Liveness.{LiveProtocol};
ghost use Rattle.enactment_model.specs.Safety.{SafeProtocol};
ghost use Rattle.stamped_history.specs.Explained.{AreExplained};
ghost use Rattle.world_run.specs.Course.{generator_of};
ghost use Rattle.world_run.specs.Finished.{IsFinished};
ghost use Rattle.world_run.specs.FinishedTable.{AgreeWithTable, AreCompleted};
ghost use Rattle.world_run.specs.Settling.{Continues, HaveRunWhole, Settles};
ghost use Rattle.world_run.specs.World.{AreKept, histories_of};

use super::inboxes::renew_inboxes;
use super::joined_desks::JoinedCounts;
use super::laws::{finished_stores_agree, idle_desks_finish, live_keys_are_bound};
use super::opened_desks::open_desks;
use super::rounds::play;
use super::world::World;
use agent_scripts::Job;
use list_base::NoMemory;
use rand_core::SeedableRng;
use rand_pcg::Pcg32;
use std::alloc::Global;

/// Runs all roles on one thread, in the order that the plan's seed gives: it settles new desks.
pub fn run_one(alloc: Global, job: &Job) -> Result<World, NoMemory>
    requires safe { SafeProtocol job.now.protocol }
    ensures finished { IfOk result (λ world. IsFinished job.now world.desks) }
    ensures course { IfOk result (λ world. HaveRunWhole job.now world.desks) }
    ensures joined { IfOk result (λ world. world.joined ≡ replicate role_limit 0) }
    ensures agree { IfOk result (λ world. AgreeWithTable job.now.protocol world.desks) }
    ensures bound { LiveProtocol job.now.protocol →
        IfOk result (λ world. AreCompleted job.now world.desks) }
{
    // laws: the stores of a finished world agree, and the keys of a live protocol are completed
    finished_stores_agree();
    live_keys_are_bound();
    let desks = open_desks(alloc, job)?;
    let mut world = World {
        desks,
        joined: JoinedCounts::none(),
    };
    settle(alloc, job, &mut world)?;
    Ok(world)
}

/// Delivers what is undelivered and lets the agents act until nothing is left. The inboxes are
/// emptied, which leaves them their room, and hold what is undelivered alone; so what they held
/// before does not matter. Out of memory leaves no shorter histories.
pub fn settle(alloc: Global, job: &Job, world: &mut World) -> Result<(), NoMemory>
    requires safe { SafeProtocol job.now.protocol }
    requires kept { AreKept job.now world.old.desks }
    requires explained { AreExplained job.now.protocol (histories_of world.old.desks) }
    ensures ok { OnOk result (Settles job.now world.old.desks world.new.desks) }
    ensures continues { Continues job.now world.old.desks world.new.desks }
    ensures joined { world.new.joined ≡ world.old.joined }
{
    // law: desks at which nothing is left to do are finished
    idle_desks_finish(job);
    renew_inboxes(alloc, job, &mut world.desks)?;
    play(&mut world.desks, job, &mut first_generator(job))
}

/// The generator of the plan's seed.
fn first_generator(job: &Job) -> Pcg32
    ensures { result ≡ generator_of job.now }
{
    Pcg32::seed_from_u64(job.plan().seed)
}
