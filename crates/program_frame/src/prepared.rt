ghost use Rattle.std.specs.Prelude.{map, string_bytes};
ghost use Rattle.program_frame.specs.Prepared.{AreReadsCounted, IsPrepared};

use super::ending::Ending;
use super::program::Program;
use super::reply::Reply;
use bspl_io::{ReadRefusal, Source, read_all};
use list_base::Bytes;
use std::alloc::Global;

/// What a call knows before it writes anything.
#[derive(Drop)]
pub enum Prepared<X, S> {
    /// The reply in place of going on.
    Replied(Reply<S>),
    /// What the arguments request, and what was read of the input for it.
    Read { request: X, input: Bytes },
    /// The call ends here.
    Ended(Ending<S>),
}

/// Reads what the arguments request, and the input if they ask for it.
pub fn prepare<'a, P: Program<'a>, R: Source>(
    alloc: Global,
    args: &'a [String],
    input: &mut R,
) -> Prepared<P, P::Status>
    ensures known { IsPrepared (P.asks (map string_bytes args.now)) P.limit
        (P.requests (map string_bytes args.now)) (P.answers (map string_bytes args.now))
        (R.remaining input.old) (R.remaining input.new) result }
    ensures faults { AreReadsCounted (R.faults input.old) (R.faults input.new) result }
{
    let Ok(request) = P::request(alloc, args) else {
        return Prepared::Ended(Ending::NoMemory);
    };
    if !request.asks_input() {
        return Prepared::Read {
            request,
            input: Bytes::new(alloc),
        };
    }
    match read_all(alloc, input, request.input_limit()) {
        Ok(input) => Prepared::Read { request, input },
        Err(ReadRefusal::TooLong) => match request.too_long(alloc) {
            Ok(reply) => Prepared::Replied(reply),
            Err(_) => Prepared::Ended(Ending::NoMemory),
        },
        Err(ReadRefusal::ReadFault) => Prepared::Ended(Ending::ReadFault),
        Err(ReadRefusal::NoMemory) => Prepared::Ended(Ending::NoMemory),
    }
}
