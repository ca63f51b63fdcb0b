ghost use Rattle.std.specs.Prelude.{◌↔◌, IsTrue};
ghost use Rattle.bspl_types.specs.History.{instance_of, IsRun};
ghost use Rattle.bspl_types.specs.Instance.{Fits};
ghost use Rattle.enactment_model.specs.Safety.{SafeProtocol};

use super::fixtures::{RELAY, alone, job_of};
use agent_scripts::Job;
use bspl_types::{Event, Expanded, NoMemory, Run};
use enactment_model::{legal, single_producer};
use std::alloc::Global;
use std::test::Fail;
use world_run::{merge, run_one};

/// C starts, B and C send to A, and A answers each of the two messages.
const FORK: &[u8] = b"P {
  roles A, B, C
  parameters out ID key, out k, out u, out v, out w, out z
  C -> B: start[out ID, out k]
  C -> A: direct[in ID, in k, out u]
  B -> A: relayed[in ID, in k, out v]
  A -> C: first[in ID, in u, out w]
  A -> C: second[in ID, in v, out z]
}";

/// What is done with the message of that number.
#[derive(Clone, Copy)]
enum Act {
    Emit(u32),
    Receive(u32),
}

/// The acts if A takes `direct` first.
const DIRECT_FIRST: &[Act] = &[
    Act::Emit(0),
    Act::Receive(0),
    Act::Emit(1),
    Act::Receive(1),
    Act::Emit(2),
    Act::Emit(3),
    Act::Receive(2),
    Act::Receive(3),
    Act::Emit(4),
    Act::Receive(4),
];

/// The acts if A takes `relayed` first.
const RELAYED_FIRST: &[Act] = &[
    Act::Emit(0),
    Act::Receive(0),
    Act::Emit(1),
    Act::Emit(2),
    Act::Receive(2),
    Act::Emit(4),
    Act::Receive(1),
    Act::Receive(4),
    Act::Emit(3),
    Act::Receive(3),
];

/// All events of the world in which the agents play.
fn merged(alloc: Global, job: &Job) -> Result<Run, NoMemory>
    requires { SafeProtocol job.now.protocol }
{
    let world = run_one(alloc, job)?;
    merge(alloc, &world)
}

/// The same, if the protocol is found safe: no parameter is produced by two messages.
fn played(alloc: Global, job: &Job) -> Result<Option<Run>, NoMemory> {
    if single_producer(job.admitted().expanded()) {
        Ok(Some(merged(alloc, job)?))
    } else {
        Ok(None)
    }
}

/// Whether each event's instance fits the protocol.
fn are_fit(x: &Expanded, events: &[Event]) -> bool
    ensures { IsTrue result ↔ IsRun x.now events.now }
{
    events.iter().all(|event| is_fit(x, event))
}

/// Whether the event's instance fits the protocol.
fn is_fit(x: &Expanded, event: &Event) -> bool
    ensures { IsTrue result ↔ Fits x.now (instance_of event.now) }
{
    match event {
        Event::Emit(instance) | Event::Receive(instance) => instance.fits(x),
    }
}

/// Whether there are this many events, they fit the protocol, and they are a legal run.
fn is_legal_run(x: &Expanded, events: &[Event], count: usize) -> bool {
    events.len() == count && are_fit(x, events) && legal(x, events).is_ok()
}

/// The same of the run that the job's agents play.
fn plays_legally(alloc: Global, job: &Job, count: usize) -> Result<bool, Fail> {
    let run = played(alloc, job)?.ok_or("two messages produce one parameter")?;
    Ok(is_legal_run(job.admitted().expanded(), run.as_slice(), count))
}

/// The same of the agents of the text.
fn relays(alloc: Global, text: &[u8], count: usize) -> Result<bool, Fail> {
    let jobs = alone(alloc, job_of(alloc, RELAY, text)?)?;
    plays_legally(alloc, jobs.at(0), count)
}

/// Each of the three messages is lost at one of the eight keys, and nothing follows what is lost:
/// eight, seven and six are emitted, and seven, six and five are received.
#[test]
fn a_world_merges_into_a_legal_run(rt: HostRuntime) -> Result<(), Fail> {
    assert!(rt; relays(rt.alloc(), b"keys 8\nloss 100\n", 39)?);
    Ok(())
}

/// Whether the event is that act.
fn is_act(event: &Event, act: Act) -> bool {
    match (event, act) {
        (Event::Emit(instance), Act::Emit(message)) => instance.message == message,
        (Event::Receive(instance), Act::Receive(message)) => instance.message == message,
        (_, _) => false,
    }
}

/// Whether the events are these acts, in order.
fn are_acts(events: &[Event], acts: &[Act]) -> bool {
    for (event, act) in events.iter().zip(acts.iter()) {
        if !is_act(event, *act) {
            return false;
        }
    }
    events.len() == acts.len()
}

/// Whether the merged run of the agents of the text has these acts.
fn runs_as(alloc: Global, text: &[u8], acts: &[Act]) -> Result<bool, Fail> {
    let jobs = alone(alloc, job_of(alloc, FORK, text)?)?;
    let run = played(alloc, jobs.at(0))?.ok_or("two messages produce one parameter")?;
    Ok(are_acts(run.as_slice(), acts))
}

/// A holds `relayed` with stamp 3 and `direct` with stamp 2 when it takes for the first time, by
/// the second word of the generator. For seed 0 that is 4236525527, which is odd.
#[test]
fn an_odd_word_takes_the_second_envelope(rt: HostRuntime) -> Result<(), Fail> {
    assert!(rt; runs_as(rt.alloc(), b"seed 0\n", DIRECT_FIRST)?);
    Ok(())
}

/// For seed 1 that word is 2109535214, which is even.
#[test]
fn an_even_word_takes_the_first_envelope(rt: HostRuntime) -> Result<(), Fail> {
    assert!(rt; runs_as(rt.alloc(), b"seed 1\n", RELAYED_FIRST)?);
    Ok(())
}
