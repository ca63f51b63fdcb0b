ghost use Rattle.std.specs.Prelude.{◌≡◌, map, string_bytes, IfOk, IfErr};
ghost use Rattle.program_frame.specs.Call.{AreCounted};
ghost use Rattle.program_frame.specs.declared.ending.Ending.TheVariants.{NoMemory};

use super::ending::Ending;
use super::program::Call;
use bspl_io::{Sink, Source, StdSink, StdSource};
use std::alloc::Global;
use std::io::{self, Read, Write};

/// The call for the arguments over a reader and a writer, which come back as the source and the
/// sink of the call, with their counts of faults. If the arguments could not be had, nothing is
/// read or written.
pub fn answer<'a, C: Call<'a>, R: Read, W: Write>(
    alloc: Global,
    args: &'a io::Result<Vec<String>>,
    input: R,
    output: W,
) -> (Ending<C::Status>, StdSource<R>, StdSink<W>)
    ensures call { IfOk args.now (λ args. C.calls (map string_bytes args.items)
        (record {
          remaining = R.remaining input;
          remaining_after = ⟦<StdSource<R> as Source>⟧.remaining result.1;
          contents = W.contents output;
          contents_after = ⟦<StdSink<W> as Sink>⟧.contents result.2;
        }) result.0) }
    ensures faults { IfOk args.now (λ _. AreCounted (record {
      reads = 0;
      reads_after = ⟦<StdSource<R> as Source>⟧.faults result.1;
      writes = 0;
      writes_after = ⟦<StdSink<W> as Sink>⟧.faults result.2;
    }) result.0) }
    ensures no_args { IfErr args.now (λ _. result.0 ≡ NoMemory) }
    ensures unread { IfErr args.now (λ _.
        ⟦<StdSource<R> as Source>⟧.remaining result.1 ≡ R.remaining input) }
    ensures unwritten { IfErr args.now (λ _.
        ⟦<StdSink<W> as Sink>⟧.contents result.2 ≡ W.contents output) }
{
    let mut source = StdSource::new(input);
    let mut sink = StdSink::new(output);
    let ending = match args {
        Ok(args) => C::call(alloc, args.as_slice(), &mut source, &mut sink),
        Err(_) => Ending::NoMemory,
    };
    (ending, source, sink)
}
