ghost use Rattle.std.specs.Prelude.{◌≡◌, map, string_bytes, IfOk, IfErr};
ghost use Rattle.program_frame.specs.Call.{AreCounted};
ghost use Rattle.program_frame.specs.declared.ending.Ending.TheVariants.{NoMemory};
ghost use Rattle.tool_input.specs.Call.{IsToolCall, fault_counts, traffic_of};
ghost use Rattle.bspl_tool.specs.Headline.{TrueWhereSaid};
ghost use Rattle.bspl_tool.specs.Interface.{tool_interface};

use super::call::bspl;
use adapter::OpenGate;
use bspl_io::{Sink, Source, StdSink, StdSource};
use program_frame::Ending;
use std::alloc::Global;
use std::io::{self, Read, Write};
use std::sync::Wait;
use std::thread::Threads;
use tool_input::Status;

/// The call for the arguments over a reader and a writer, which come back as the source and the
/// sink of the call, with their counts of faults. No gate holds a thread. If the arguments could
/// not be had, nothing is read or written.
pub fn answer<H: Threads + Wait + Sync, R: Read, W: Write>(
    rt: &H,
    alloc: Global,
    args: &io::Result<Vec<String>>,
    input: R,
    output: W,
) -> (Ending<Status>, StdSource<R>, StdSink<W>)
    ensures call { IfOk args.now (λ args.
        IsToolCall tool_interface (map string_bytes args.items) (traffic_of
        (R.remaining input) (⟦<StdSource<R> as Source>⟧.remaining result.1)
        (W.contents output) (⟦<StdSink<W> as Sink>⟧.contents result.2)) result.0) }
    ensures faults { IfOk args.now (λ _. AreCounted (fault_counts
        0 (⟦<StdSource<R> as Source>⟧.faults result.1)
        0 (⟦<StdSink<W> as Sink>⟧.faults result.2)) result.0) }
    ensures headline { IfOk args.now (λ args. TrueWhereSaid (map string_bytes args.items) (traffic_of
        (R.remaining input) (⟦<StdSource<R> as Source>⟧.remaining result.1)
        (W.contents output) (⟦<StdSink<W> as Sink>⟧.contents result.2))) }
    ensures no_args { IfErr args.now (λ _. result.0 ≡ NoMemory) }
    ensures unread { IfErr args.now (λ _.
        ⟦<StdSource<R> as Source>⟧.remaining result.1 ≡ R.remaining input) }
    ensures unwritten { IfErr args.now (λ _.
        ⟦<StdSink<W> as Sink>⟧.contents result.2 ≡ W.contents output) }
{
    let mut source = StdSource::new(input);
    let mut sink = StdSink::new(output);
    let ending = match args {
        Ok(args) => bspl(
            rt,
            alloc,
            args.as_slice(),
            &mut source,
            &mut sink,
            &OpenGate,
        ),
        Err(_) => Ending::NoMemory,
    };
    (ending, source, sink)
}
