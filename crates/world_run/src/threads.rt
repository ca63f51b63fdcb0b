ghost use Rattle.std.specs.Prelude.{◌≡◌, ◌≤◌, IfOk};
ghost use Rattle.enactment_model.specs.Liveness.{LiveProtocol};
ghost use Rattle.enactment_model.specs.Safety.{SafeProtocol};
ghost use Rattle.world_run.specs.Finished.{IsFinished};
ghost use Rattle.world_run.specs.FinishedTable.{AgreeWithTable, AreCompleted};
ghost use Rattle.world_run.specs.Joined.{AreAtMost, HaveSettled};
ghost use Rattle.world_run.specs.Shared.{AreNewPasses};

use super::laws::{finished_stores_agree, live_keys_are_bound};
use super::run::settle;
use super::shared::Shared;
use super::workers::run_workers;
use super::world::World;
use adapter::Gate;
use agent_scripts::{Job, Scene};
use list_base::NoMemory;
use reorder_net::{Mail, PassList, Post};
use std::alloc::Global;
use std::marker::Brand;
use std::sync::Wait;
use std::thread::Threads;

/// Runs the agents of each role in the given number of threads, joins all threads, and settles the
/// world that they leave. Nothing is promised of the order in which threads act.
pub fn run_threads<H: Threads + Wait + Sync, G: Gate + Sync>(
    rt: &H,
    alloc: Global,
    job: &Job,
    threads: u32,
    gate: &G,
) -> Result<World, NoMemory>
    requires safe { SafeProtocol job.now.protocol }
    requires threads { (1 ≤ threads) × (threads ≤ 8) }
    ensures finished { IfOk result (λ world. IsFinished job.now world.desks) }
    ensures settled { IfOk result (HaveSettled job.now) }
    ensures joined { IfOk result (λ world. AreAtMost world.joined world.desks) }
    ensures agree { IfOk result (λ world. AgreeWithTable job.now.protocol world.desks) }
    ensures bound { LiveProtocol job.now.protocol →
        IfOk result (λ world. AreCompleted job.now world.desks) }
{
    // laws: the stores of a finished world agree, and the keys of a live protocol are completed
    finished_stores_agree();
    live_keys_are_bound();
    run_named::<Brand, H, G>(rt, alloc, job, threads, gate)
}

/// The same, with the job that `N` names.
fn run_named<N: Scene + Send + Sync, H: Threads + Wait + Sync, G: Gate + Sync>(
    rt: &H,
    alloc: Global,
    job: &Job,
    threads: u32,
    gate: &G,
) -> Result<World, NoMemory>
    requires job { N.job ≡ job.now }
    requires safe { SafeProtocol job.now.protocol }
    requires threads { (1 ≤ threads) × (threads ≤ 8) }
    ensures { IfOk result (HaveSettled job.now) }
{
    let roles = job.admitted().expanded().roles.len();
    let (post, passes) = Post::<N>::new(alloc, roles as u32)?;
    run_mailed::<N, Brand, H, G>(rt, alloc, job, threads, &post, passes, gate)
}

/// The same, with the mailboxes that `M` names and unused passes to them.
fn run_mailed<
    N: Scene + Send + Sync,
    M: Mail + Send + Sync,
    H: Threads + Wait + Sync,
    G: Gate + Sync,
>(
    rt: &H,
    alloc: Global,
    job: &Job,
    threads: u32,
    post: &Post<N>,
    passes: PassList,
    gate: &G,
) -> Result<World, NoMemory>
    requires job { (N.job ≡ job.now) × SafeProtocol job.now.protocol }
    requires threads { (1 ≤ threads) × (threads ≤ 8) }
    requires post { post.now ≡ M.boxes }
    requires passes { AreNewPasses job.now post.now passes }
    ensures { IfOk result (HaveSettled job.now) }
{
    let shared = Shared::<N, M>::new(alloc, job, threads, post, passes)?;
    run_workers(rt, alloc, &shared, gate)?;
    let mut world = shared.into_world(rt);
    settle(alloc, job, &mut world)?;
    Ok(world)
}
