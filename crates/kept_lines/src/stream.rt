ghost use Rattle.std.specs.Prelude.{◌≡◌, ◌≢◌, [], All, IfErr, IfOk, IsErrOf, OnErr, OnOk};
ghost use Rattle.std.specs.Io.KnownBytes.{Appends};
ghost use Rattle.bspl_io.specs.Faults.{HasCounted};
ghost use Rattle.bspl_io.specs.Sink.{AppendsPrefix};
ghost use Rattle.kept_lines.specs.Flow.{IsCountedIf, faults_of, flow_of};
ghost use Rattle.kept_lines.specs.Stream.{AnswersAll, NamesItsFault, StopsAnswering};
ghost use Rattle.kept_lines.specs.inner.Coming.{PassesPiece, last_unread};

use super::answer::{AnswerRefusal, keep_and_write};
use super::batch::Batch;
use super::journal::Journal;
use super::responder::Responder;
use super::stream_refusal::StreamRefusal;
use bspl_io::{Sink, Source, WriteRefusal, write_all};
use list_base::{Bytes, NoMemory};
use std::alloc::Global;

/// The most bytes that one read asks for.
const PIECE: usize = 16_384;

/// Answers each line of the bytes that were taken ahead of the input and then of the input, as soon
/// as it is whole. What is to be kept of the lines of one read is kept before their replies are
/// written, and all of these are written before more is read. At most `limit` bytes may come, with
/// those that were taken ahead. A refusal gives no responder back, since it may have answered lines
/// that are not kept.
pub fn answer_stream<A: Responder + Drop, J: Journal, R: Source, W: Sink>(
    alloc: Global,
    responder: A,
    ahead: &[u8],
    limit: u64,
    journal: &mut J,
    input: &mut R,
    output: &mut W,
) -> Result<A, StreamRefusal>
    ensures ok { IfOk result (AnswersAll A.answers responder ahead.now limit
        (flow_of R.remaining W.contents J.kept input.old input.new output.old output.new
        journal.old journal.new)) }
    ensures err { IfErr result (StopsAnswering A.answers responder ahead.now limit
        (flow_of R.remaining W.contents J.kept input.old input.new output.old output.new
        journal.old journal.new)) }
    ensures faults { NamesItsFault (faults_of R.faults W.faults J.faults input.old input.new
        output.old output.new journal.old journal.new) result }
{
    let mut current = responder;
    match run(alloc, &mut current, ahead, limit, journal, input, output) {
        Ok(()) => Ok(current),
        Err(refusal) => Err(refusal),
    }
}

/// Answers each line of the bytes and then of the input.
fn run<A: Responder, J: Journal, R: Source, W: Sink>(
    alloc: Global,
    responder: &mut A,
    ahead: &[u8],
    limit: u64,
    journal: &mut J,
    input: &mut R,
    output: &mut W,
) -> Result<(), StreamRefusal>
    ensures ok { OnOk result (AnswersAll A.answers responder.old ahead.now limit
        (flow_of R.remaining W.contents J.kept input.old input.new output.old output.new
        journal.old journal.new) responder.new) }
    ensures err { IfErr result (StopsAnswering A.answers responder.old ahead.now limit
        (flow_of R.remaining W.contents J.kept input.old input.new output.old output.new
        journal.old journal.new)) }
    ensures faults { NamesItsFault (faults_of R.faults W.faults J.faults input.old input.new
        output.old output.new journal.old journal.new) result }
{
    if ahead.len() as u64 > limit {
        return Err(StreamRefusal::TooLong);
    }
    let mut begun = Bytes::new(alloc);
    step(alloc, responder, &mut begun, ahead, journal, output)?;
    let mut taken = ahead.len() as u64;
    let mut piece = [0u8; PIECE];
    'pieces: loop {
        let count = input.read(&mut piece)?;
        if count == 0 {
            write_last(alloc, responder, &begun, output)?;
            return Ok(());
        }
        if count as u64 > limit - taken {
            return Err(StreamRefusal::TooLong);
        }
        taken += count as u64;
        let bytes = &piece[..count];
        step(alloc, responder, &mut begun, bytes, journal, output)?;
    }
}

/// Answers each line that the piece makes whole, keeps what is to be kept of the lines, and writes
/// the replies.
fn step<A: Responder, J: Journal, W: Sink>(
    alloc: Global,
    responder: &mut A,
    begun: &mut Bytes,
    piece: &[u8],
    journal: &mut J,
    output: &mut W,
) -> Result<(), AnswerRefusal>
    requires { All (λ byte. byte ≢ 10) begun.old }
    ensures order { PassesPiece A.answers responder.old begun.old piece.now responder.new begun.new
        (record {
          kept = J.kept journal.old;
          kept_after = J.kept journal.new;
          contents = W.contents output.old;
          contents_after = W.contents output.new;
        }) result }
    ensures keep { IsCountedIf (IsErrOf result AnswerRefusal.JournalFault)
        (J.faults journal.old) (J.faults journal.new) }
    ensures write { IsCountedIf (IsErrOf result AnswerRefusal.WriteFault)
        (W.faults output.old) (W.faults output.new) }
{
    let Ok(batch) = Batch::of_piece(alloc, responder, begun, piece) else {
        return Err(AnswerRefusal::NoMemory);
    };
    keep_and_write(
        journal,
        output,
        batch.acts.as_slice(),
        batch.replies.as_slice(),
    )
}

/// Writes the reply to the line that lacks its LF at the end of the input, if there is one.
fn write_last<A: Responder, W: Sink>(
    alloc: Global,
    responder: &A,
    begun: &Bytes,
    output: &mut W,
) -> Result<(), AnswerRefusal>
    ensures ok { OnOk result (Appends (W.contents output.old) (W.contents output.new)
        (last_unread A.unread responder.now begun.now)) }
    ensures err { OnErr result (AppendsPrefix (W.contents output.old) (W.contents output.new)
        (last_unread A.unread responder.now begun.now)) }
    ensures keep { ¬ IsErrOf result AnswerRefusal.JournalFault }
    ensures write { IsCountedIf (IsErrOf result AnswerRefusal.WriteFault)
        (W.faults output.old) (W.faults output.new) }
{
    let Ok(text) = last_text(alloc, responder, begun) else {
        return Err(AnswerRefusal::NoMemory);
    };
    write_all(output, text.as_slice())?;
    Ok(())
}

/// The reply to the line that lacks its LF at the end of the input, if there is one.
fn last_text<A: Responder>(alloc: Global, responder: &A, begun: &Bytes) -> Result<Bytes, NoMemory>
    ensures { IfOk result (λ text. text ≡ last_unread A.unread responder.now begun.now) }
{
    let mut text = Bytes::new(alloc);
    if begun.is_empty() {
        return Ok(text);
    }
    responder.push_unread(alloc, &mut text)?;
    Ok(text)
}
