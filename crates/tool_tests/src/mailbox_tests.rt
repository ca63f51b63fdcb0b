ghost use Rattle.std.specs.Prelude.{◌≡◌, ◌<◌, [], ◌∷◌, IfOk, length};
ghost use Rattle.enactment_model.specs.Safety.{SafeProtocol};
ghost use Rattle.world_run.specs.Shared.{AreNewPasses};

use super::gates::OneAfterTheOther;
use adapter::{Gate, OpenGate};
use agent_scripts::{Job, Scene};
use bspl_parser::{parse, reads_back};
use bspl_types::{Admitted, Event, Expanded, NoMemory, Refusal, Seq};
use enactment_model::single_producer;
use local_store::Store;
use protocol_expand::{admit, expand};
use reorder_net::{Mail, PassList, Post};
use script_text::read_scripts;
use std::alloc::Global;
use std::marker::Brand;
use std::sync::Wait;
use std::test::Fail;
use std::thread::Threads;
use world_run::{Shared, World, run_threads, work};

/// Each role sends a message to the next one, and the last one to the first.
const RELAY: &[u8] = b"P {
  roles A, B, C
  parameters out ID key, out x, out y, out z
  A -> B: a[out ID, out x]
  B -> C: b[in ID, in x, out y]
  C -> A: c[in ID, in y, out z]
}";

/// A worker has a turn for each key in each of its passes, which are one more than the messages.
const TURNS: u64 = 4_000;

/// The expansion of the protocol `P` of the text.
fn expansion(alloc: Global, text: &[u8]) -> Result<Expanded, Refusal> {
    // law: the document of a text is well formed
    reads_back();
    let document = parse(alloc, text)?;
    expand(alloc, &document, b"P")
}

/// The protocol `P` of the text, which is admitted.
fn admitted(alloc: Global, text: &[u8]) -> Result<Admitted, Fail> {
    let x = expansion(alloc, text)
        .ok()
        .ok_or("the text has no expansion")?;
    Ok(admit(x).ok().ok_or("the protocol is not admitted")?)
}

/// A relay of a thousand keys.
fn relay(alloc: Global) -> Result<Job, Fail> {
    let protocol = admitted(alloc, RELAY)?;
    let agents = read_scripts(alloc, b"keys 1000\n", &protocol)?;
    Ok(Job::of(protocol, agents))
}

/// A list of the item alone: it is one value to drop, where the item may have many.
fn alone<T: Drop>(alloc: Global, item: T) -> Result<Seq<T>, NoMemory>
    ensures { IfOk result (λ list. list ≡ item ∷ []) }
{
    let mut list = Seq::new(alloc);
    list.push(item)?;
    Ok(list)
}

/// How many entries each of three roles had when their threads were joined.
fn joined<H: Threads + Wait + Sync, G: Gate + Sync>(
    rt: &H,
    alloc: Global,
    job: &Job,
    gate: &G,
) -> Result<[u32; 3], NoMemory>
    requires safe { SafeProtocol job.now.protocol }
    requires roles { length job.now.protocol.roles ≡ 3 }
{
    let world = run_threads(rt, alloc, job, 1, gate)?;
    Ok([world.joined(0), world.joined(1), world.joined(2)])
}

/// The same, if the protocol has three roles and is found safe: no parameter is produced by two
/// messages.
fn joined_safely<H: Threads + Wait + Sync, G: Gate + Sync>(
    rt: &H,
    alloc: Global,
    job: &Job,
    gate: &G,
) -> Result<[u32; 3], Fail> {
    let x = job.admitted().expanded();
    if x.roles.len() == 3 && single_producer(x) {
        return Ok(joined(rt, alloc, job, gate)?);
    }
    Err("the protocol is another one".into())
}

/// A has had all its turns when B begins, and B when C begins. So B takes each of A's envelopes
/// and answers it before the threads are joined, and C does so with B's.
#[test]
fn what_threads_send_is_received_before_they_are_joined(rt: HostRuntime) -> Result<(), Fail> {
    let jobs = alone(rt.alloc(), relay(rt.alloc())?)?;
    let gate = OneAfterTheOther::of(TURNS);
    let [first, second, third] = joined_safely(&rt, rt.alloc(), jobs.at(0), &gate)?;
    assert!(rt; gate.is_met());
    assert!(rt; first >= 1_000 && second == 2_000 && third == 2_000);
    Ok(())
}

/// How many messages the store has received.
fn receipts(store: &Store) -> u32 {
    let mut count = 0u32;
    for i in 0..store.len() {
        if let (Event::Receive(_), _) = store.event(i) {
            count = count.saturating_add(1);
        }
    }
    count
}

/// How many messages B has received after all turns of A and then all of B, on one thread.
fn second_receipts<W: Wait>(rt: &W, alloc: Global, job: &Job) -> Result<u32, NoMemory>
    requires { length job.now.protocol.roles ≡ 3 }
{
    receipts_named::<Brand, W>(rt, alloc, job)
}

/// The same for the job that `N` names.
fn receipts_named<N: Scene, W: Wait>(rt: &W, alloc: Global, job: &Job) -> Result<u32, NoMemory>
    requires job { N.job ≡ job.now }
    requires roles { length job.now.protocol.roles ≡ 3 }
{
    let (post, passes) = Post::<N>::new(alloc, 3)?;
    receipts_mailed::<N, Brand, W>(rt, alloc, job, &post, passes)
}

/// The same for the mailboxes that `M` names.
fn receipts_mailed<N: Scene, M: Mail, W: Wait>(
    rt: &W,
    alloc: Global,
    job: &Job,
    post: &Post<N>,
    passes: PassList,
) -> Result<u32, NoMemory>
    requires job { N.job ≡ job.now }
    requires post { post.now ≡ M.boxes }
    requires passes { AreNewPasses job.now post.now passes }
    requires roles { length job.now.protocol.roles ≡ 3 }
{
    let shared = Shared::<N, M>::new(alloc, job, 1, post, passes)?;
    let first = work(rt, &shared, 0, 0, 4, &OpenGate);
    let second = work(rt, &shared, 1, 0, 4, &OpenGate);
    let count = received(&shared.into_world(rt));
    first?;
    second?;
    Ok(count)
}

/// How many messages the world's second role has received.
fn received(world: &World) -> u32
    requires { 1 < length world.now.desks }
{
    receipts(world.state(1).store())
}

/// The same, if the protocol has three roles.
fn second_receipts_of_three<W: Wait>(rt: &W, alloc: Global, job: &Job) -> Result<u32, Fail> {
    if job.admitted().expanded().roles.len() == 3 {
        return Ok(second_receipts(rt, alloc, job)?);
    }
    Err("the protocol is another one".into())
}

/// B's worker takes what A's put into its mailbox: nothing has settled yet.
#[test]
fn a_worker_takes_what_another_one_sent(rt: HostRuntime) -> Result<(), Fail> {
    let jobs = alone(rt.alloc(), relay(rt.alloc())?)?;
    assert!(rt; second_receipts_of_three(&rt, rt.alloc(), jobs.at(0))? == 1_000);
    Ok(())
}
