ghost use Rattle.program_frame.specs.Prepared.{AreWritesCounted};
ghost use Rattle.program_frame.specs.Reply.{IsWritten};

use super::ending::Ending;
use bspl_io::{Sink, WriteRefusal, write_all};
use list_base::{Bytes, NoMemory};

/// What is to be written, and the status of the answer.
#[derive(Drop)]
pub struct Reply<S> {
    pub status: S,
    pub text: Bytes,
}

/// Writes the reply that was made, and says how the call ends. Without one memory ran out.
pub fn write_reply<S: Drop, W: Sink>(made: Result<Reply<S>, NoMemory>, output: &mut W) -> Ending<S>
    ensures written { IsWritten made (W.contents output.old) (W.contents output.new) result }
    ensures faults { AreWritesCounted (W.faults output.old) (W.faults output.new) result }
{
    let Ok(reply) = made else {
        return Ending::NoMemory;
    };
    match write_all(output, reply.text.as_slice()) {
        Ok(()) => Ending::Answered(reply.status),
        Err(WriteRefusal::WriteFault) => Ending::WriteFault,
        Err(WriteRefusal::NoMemory) => Ending::NoMemory,
    }
}
