ghost use Rattle.std.specs.Prelude.{◌≡◌, ◌*◌, ◌/◌, ◌%◌, ◌<◌, length, IfOk, OnOk};
ghost use Rattle.adapter.specs.Worker.{IsSameThread};

use super::pace::Stride;
use super::shared::Shared;
use adapter::{Gate, Worker};
use agent_scripts::Scene;
use list_base::NoMemory;
use reorder_net::Mail;
use std::alloc::Global;
use std::sync::Wait;
use std::thread::{Threads, map_indices};

/// How many stretches a pass has. At the beginning of each a worker waits if it is ahead.
const STRETCHES: u64 = 2;

/// What one thread of a role does: the given number of passes over its share of the workload
/// numbers. Of `T` threads, number `n` belongs to thread `(n - 1) mod T`. At each number the worker
/// passes the gate's `before`, and takes the role's lock for one turn. Out of memory ends the work.
pub fn work<N: Scene, M: Mail, W: Wait, G: Gate>(
    rt: &W,
    shared: &Shared<'_, N, M>,
    role: u32,
    thread: u32,
    passes: u32,
    gate: &G,
) -> Result<(), NoMemory>
    requires role { role < length N.job.protocol.roles }
    requires thread { thread < shared.now.threads }
{
    let _worker = worker_after(rt, shared, role, thread, passes, gate)?;
    Ok(())
}

/// The worker once it has worked. A worker that is half a pass ahead of the others waits for them a
/// while: it would find nothing to do, and would be through with its passes before their envelopes
/// come.
fn worker_after<N: Scene, M: Mail, W: Wait, G: Gate>(
    rt: &W,
    shared: &Shared<'_, N, M>,
    role: u32,
    thread: u32,
    passes: u32,
    gate: &G,
) -> Result<Worker<N>, NoMemory>
    requires role { role < length N.job.protocol.roles }
    requires thread { thread < shared.now.threads }
    ensures { IfOk result (λ w. (w.role ≡ role) × (w.thread ≡ thread)) }
{
    let mut worker = Worker::new(shared.job, role, thread);
    let mut stride = Stride::new();
    for _pass in 0..passes {
        work_once(rt, shared, &mut worker, &mut stride, gate)?;
    }
    Ok(worker)
}

/// One pass over the worker's workload numbers.
fn work_once<N: Scene, M: Mail, W: Wait, G: Gate>(
    rt: &W,
    shared: &Shared<'_, N, M>,
    worker: &mut Worker<N>,
    stride: &mut Stride,
    gate: &G,
) -> Result<(), NoMemory>
    requires role { worker.old.role < length N.job.protocol.roles }
    ensures { OnOk result (IsSameThread worker.old worker.new) }
{
    let threads = u64::from(shared.threads);
    let numbers = shared.job.script().count();
    for index in 0..numbers {
        if index % (numbers / STRETCHES + 1) == 0 {
            shared.pace.begin(rt, stride);
        }
        if index % threads == u64::from(worker.thread()) {
            gate.before(worker.role(), worker.thread());
            shared.turn(rt, index + 1, worker, gate)?;
        }
    }
    Ok(())
}

/// Runs a worker for each thread of each role, and returns once all have returned. A worker that
/// gets no thread of its own is run by the caller.
pub fn run_workers<
    N: Scene + Send + Sync,
    M: Mail + Send + Sync,
    H: Threads + Wait + Sync,
    G: Gate + Sync,
>(rt: &H, alloc: Global, shared: &Shared<'_, N, M>, gate: &G) -> Result<(), NoMemory> {
    let roles = shared.job.admitted().expanded().roles.len();
    let workers = roles * shared.threads as usize;
    let results = map_indices(
        rt,
        alloc,
        workers,
        &|index|
            requires { index < length N.job.protocol.roles * shared.now.threads }
        { run_worker(rt, shared, index, gate) },
    )?;
    for result in results {
        let _worker = result?;
    }
    Ok(())
}

/// Runs the worker at the index, in order of the roles and of their threads. It makes one pass more
/// than there are messages.
fn run_worker<N: Scene, M: Mail, W: Wait, G: Gate>(
    rt: &W,
    shared: &Shared<'_, N, M>,
    index: usize,
    gate: &G,
) -> Result<Worker<N>, NoMemory>
    requires { index < length N.job.protocol.roles * shared.now.threads }
    ensures { IfOk result (λ w. (w.role ≡ index / shared.now.threads)
        × (w.thread ≡ index % shared.now.threads)) }
{
    let threads = shared.threads as usize;
    let messages = shared.job.admitted().expanded().messages.len();
    let passes = messages as u32 + 1;
    worker_after(
        rt,
        shared,
        (index / threads) as u32,
        (index % threads) as u32,
        passes,
        gate,
    )
}
