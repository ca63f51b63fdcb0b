ghost use Rattle.std.specs.Prelude.{map, string_bytes};
ghost use Rattle.program_frame.specs.Call.{AreCounted};
ghost use Rattle.tool_input.specs.Call.{fault_counts, traffic_of};
ghost use Rattle.more_commands.specs.Call.{IsMoreCall};

use super::question::MoreQuestion;
use bspl_io::{Sink, Source};
use program_frame::{Ending, serve};
use std::alloc::Global;
use tool_input::{Request, Status};

/// Reads what the arguments request, and writes the answer of the command.
pub fn bspl_more<R: Source, W: Sink>(
    alloc: Global,
    args: &[String],
    input: &mut R,
    output: &mut W,
) -> Ending<Status>
    ensures call { IsMoreCall (map string_bytes args.now)
        (traffic_of (R.remaining input.old) (R.remaining input.new)
        (W.contents output.old) (W.contents output.new)) result }
    ensures counted { AreCounted
        (fault_counts (R.faults input.old) (R.faults input.new)
        (W.faults output.old) (W.faults output.new)) result }
{
    serve::<Request<'_, MoreQuestion<'_>>, R, W>(alloc, args, input, output)
}
