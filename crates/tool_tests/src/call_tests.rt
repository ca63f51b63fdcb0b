use super::args::args_of;
use adapter::OpenGate;
use bspl_io::{MemSink, MemSource};
use bspl_tool::bspl;
use bspl_types::{Bytes, NoMemory, NumberList};
use program_frame::Ending;
use std::alloc::Global;
use std::sync::Wait;
use std::test::Fail;
use std::thread::Threads;
use tool_input::Status;

const PING: &[u8] = b"Ping { roles A, B parameters out ID key A -> B: ping[out ID] }";

/// A call, and how it ends. The source's pieces have sixteen bytes, and the sink's eight.
#[derive(Clone, Copy)]
struct Row {
    args: &'static str,
    input: &'static [u8],
    /// The numbers of the source's calls that fail.
    read_faults: &'static [u32],
    /// The numbers of the sink's calls that fail.
    write_faults: &'static [u32],
    ending: Ending<Status>,
    output: &'static [u8],
}

/// A refusal without faults.
const REFUSED: Row = Row {
    args: "verify Pong",
    input: PING,
    read_faults: &[],
    write_faults: &[],
    ending: Ending::Answered(Status::Refused),
    output: b"refused E3 Pong\n",
};

/// What is said of a protocol of four stages.
const FOUR_STAGES: &[u8] = b"generate 4
messages 8
safety safe
liveness live
keys 1000
sent 4000
received 4000
bound 5000
";

const ROWS: &[Row] = &[
    Row {
        args: "verify Ping",
        read_faults: &[2],
        ending: Ending::ReadFault,
        output: b"",
        ..REFUSED
    },
    // Nothing is read.
    Row {
        args: "generate 4",
        read_faults: &[1],
        ending: Ending::Answered(Status::Done),
        output: FOUR_STAGES,
        ..REFUSED
    },
    Row {
        args: "verify",
        read_faults: &[1],
        ending: Ending::Answered(Status::Usage),
        output: b"usage: bspl COMMAND NAME [--brief] [--conflicts N] [--threads N]\n",
        ..REFUSED
    },
    Row {
        args: "verify Ping",
        write_faults: &[3],
        ending: Ending::WriteFault,
        output: b"protocol Ping\nsa",
        ..REFUSED
    },
    // A run that is out of form is refused, but only after the protocol's text.
    Row {
        args: "replay Ping",
        input: b"Ping { roles A, B parameters out ID key A -> B: ping[out ID] }\n%% run\nsent\n",
        output: b"refused W1 1\n",
        ..REFUSED
    },
    Row {
        args: "replay Ping",
        input: b"Ping $\n%% run\nsent\n",
        output: b"refused E1 5\n",
        ..REFUSED
    },
];

/// The source of the row's input, with its faults.
fn source(alloc: Global, row: &Row) -> Result<MemSource, NoMemory> {
    let faults = NumberList::from_slice(alloc, row.read_faults)?;
    Ok(MemSource::new(Bytes::from_slice(alloc, row.input)?, 16, faults))
}

/// The sink with the row's faults.
fn sink(alloc: Global, row: &Row) -> Result<MemSink, NoMemory> {
    Ok(MemSink::new(alloc, 8, NumberList::from_slice(alloc, row.write_faults)?))
}

/// Whether a call with the arguments and the source ends as the row says, and writes its output.
fn is_ending<H: Threads + Wait + Sync>(
    rt: &H,
    alloc: Global,
    args: &[String],
    source: &mut MemSource,
    row: &Row,
) -> Result<bool, NoMemory> {
    let mut sink = sink(alloc, row)?;
    let ending = bspl(rt, alloc, args, source, &mut sink, &OpenGate);
    Ok(ending == row.ending && sink.written() == row.output)
}

/// Whether a call ends as the row says, and writes its output.
fn is_answered<H: Threads + Wait + Sync>(
    rt: &H,
    alloc: Global,
    row: &Row,
) -> Result<bool, NoMemory> {
    let args = args_of(alloc, row.args)?;
    let mut source = source(alloc, row)?;
    is_ending(rt, alloc, args.as_slice(), &mut source, row)
}

#[test]
fn ends_at_faults_and_at_the_first_refusal(rt: HostRuntime) -> Result<(), Fail> {
    for row in ROWS {
        assert!(rt; is_answered(&rt, rt.alloc(), row)?);
    }
    Ok(())
}
