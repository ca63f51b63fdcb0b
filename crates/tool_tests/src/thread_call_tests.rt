use super::gates::{TwoRoles, TwoThreads};
use adapter::Gate;
use bspl_io::{PlainSink, PlainSource};
use bspl_tool::bspl;
use list_base::{Bytes, NoMemory};
use program_frame::Ending;
use std::alloc::{AllocError, Global};
use std::sync::Wait;
use std::test::Fail;
use std::thread::Threads;
use tool_input::Status;

/// Each role sends a message to the next one, and the last one to the first.
const RELAY: &[u8] = b"Relay {
  roles A, B, C
  parameters out ID key, out x, out y, out z
  A -> B: a[out ID, out x]
  B -> C: b[in ID, in x, out y]
  C -> A: c[in ID, in y, out z]
}
%% agents
";

const ONE_KEY: &[u8] = b"protocol Relay
safety safe
liveness live
world 1
message a sent 1 received 1
message b sent 1 received 1
message c sent 1 received 1
row 1 ID=1 x=101 y=102 z=103
end
";

const TWO_KEYS: &[u8] = b"protocol Relay
safety safe
liveness live
world 2
message a sent 2 received 2
message b sent 2 received 2
message c sent 2 received 2
row 1 ID=1 x=101 y=102 z=103
row 2 ID=2 x=201 y=202 z=203
end
";

/// The arguments.
fn args_of(alloc: Global, words: &[&str]) -> Result<Vec<String>, AllocError> {
    let mut args = Vec::new(alloc);
    for word in words {
        add_arg(alloc, &mut args, word)?;
    }
    Ok(args)
}

/// Adds the argument.
fn add_arg(alloc: Global, args: &mut Vec<String>, arg: &str) -> Result<(), AllocError> {
    args.push(arg.to_string(alloc)?)?;
    Ok(())
}

/// A source of the protocol with its agents.
fn source(alloc: Global, agents: &[u8]) -> Result<PlainSource, NoMemory> {
    let mut text = Bytes::from_slice(alloc, RELAY)?;
    text.append(agents)?;
    Ok(PlainSource::new(text))
}

/// Whether the call with these arguments at this gate answers with the output.
fn answers<H: Threads + Wait + Sync, G: Gate + Sync>(
    rt: &H,
    alloc: Global,
    args: &[String],
    source: &mut PlainSource,
    output: &[u8],
    gate: &G,
) -> bool {
    let mut sink = PlainSink::new(alloc);
    let ending = bspl(rt, alloc, args, source, &mut sink, gate);
    ending == Ending::Answered(Status::Done) && sink.written() == output
}

/// Two roles are within their locks at one time: A stays in its own until B is in its own.
#[test]
fn a_role_in_its_lock_keeps_no_other_out(rt: HostRuntime) -> Result<(), Fail> {
    let args = args_of(rt.alloc(), &["run", "Relay", "--brief"])?;
    let mut source = source(rt.alloc(), b"keys 1\n")?;
    let gate = TwoRoles::new();
    assert!(rt;
        answers(
            &rt,
            rt.alloc(),
            args.as_slice(),
            &mut source,
            ONE_KEY,
            &gate
        )
    );
    assert!(rt; gate.is_met());
    Ok(())
}

/// A role has two threads: each waits for the other one before its first turn.
#[test]
fn both_threads_of_a_role_run(rt: HostRuntime) -> Result<(), Fail> {
    let args = args_of(rt.alloc(), &["run", "Relay", "--brief", "--threads", "2"])?;
    let mut source = source(rt.alloc(), b"keys 2\n")?;
    let gate = TwoThreads::new();
    assert!(rt;
        answers(
            &rt,
            rt.alloc(),
            args.as_slice(),
            &mut source,
            TWO_KEYS,
            &gate
        )
    );
    assert!(rt; gate.is_met());
    Ok(())
}
