ghost use Rattle.std.specs.Prelude.{map, string_bytes};
ghost use Rattle.program_frame.specs.Call.{AreCounted, IsCall};

use super::ending::Ending;
use super::laws::halves_are_calls;
use super::prepared::{Prepared, prepare};
use super::program::Program;
use super::reply::write_reply;
use bspl_io::{Sink, Source};
use std::alloc::Global;

/// Reads what the arguments ask for, and writes the answer. The whole text is made before its
/// first byte is written.
pub fn serve<'a, P: Program<'a>, R: Source, W: Sink>(
    alloc: Global,
    args: &'a [String],
    input: &mut R,
    output: &mut W,
) -> Ending<P::Status>
    ensures call { IsCall (P.asks (map string_bytes args.now)) P.limit
        (P.answers (map string_bytes args.now)) (record {
          remaining = R.remaining input.old;
          remaining_after = R.remaining input.new;
          contents = W.contents output.old;
          contents_after = W.contents output.new;
        }) result }
    ensures faults { AreCounted (record {
      reads = R.faults input.old;
      reads_after = R.faults input.new;
      writes = W.faults output.old;
      writes_after = W.faults output.new;
    }) result }
{
    // law: what is prepared and then goes on is a call
    halves_are_calls::<P>();
    match prepare::<P, R>(alloc, args, input) {
        Prepared::Replied(reply) => write_reply(Ok(reply), output),
        Prepared::Read { request, input } => write_reply(request.reply_to(alloc, input), output),
        Prepared::Ended(ending) => ending,
    }
}
