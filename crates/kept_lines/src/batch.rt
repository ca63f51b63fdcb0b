ghost use Rattle.std.specs.Prelude.{◌≡◌, ◌≢◌, [], All, IfOk, OnOk};
ghost use Rattle.kept_lines.specs.inner.Coming.{AnswersBody, AnswersPiece, EndsLineOf, begun_more};

use super::responder::Responder;
use list_base::{Bytes, NoMemory};
use std::alloc::Global;
use std::mem;
use text_lines::split_once;

/// The most bytes that a line may have before its LF.
const LINE_LIMIT: usize = 65_536;

/// The most bytes of a begun line that are held: enough to show that it is too long.
const BEGUN_LIMIT: usize = 65_537;

/// The answers to the lines of one piece of a stream.
#[derive(Drop)]
pub struct Batch {
    /// The replies, which are still to be written.
    pub replies: Bytes,
    /// The lines that are still to be kept.
    pub acts: Bytes,
}

impl Batch {
    /// Answers each line that the piece makes whole, and holds the line that it begins.
    pub fn of_piece<A: Responder>(
        alloc: Global,
        responder: &mut A,
        begun: &mut Bytes,
        piece: &[u8],
    ) -> Result<Batch, NoMemory>
        requires { All (λ byte. byte ≢ 10) begun.old }
        ensures { IfOk result (λ batch. AnswersPiece A.answers responder.old begun.old piece.now
            responder.new begun.new batch.replies batch.acts) }
    {
        let mut batch = Batch {
            replies: Bytes::new(alloc),
            acts: Bytes::new(alloc),
        };
        let mut rest = piece;
        'lines: loop {
            let (first, more) = split_once(rest, b'\n');
            let Some(more) = more else {
                hold(begun, first)?;
                return Ok(batch);
            };
            batch.end_line(alloc, responder, begun, first)?;
            rest = more;
        }
    }

    /// Answers the line that ends with these bytes and an LF. One that lies in the piece as a
    /// whole is not copied.
    fn end_line<A: Responder>(
        &mut self,
        alloc: Global,
        responder: &mut A,
        begun: &mut Bytes,
        last: &[u8],
    ) -> Result<(), NoMemory>
        requires begun { All (λ byte. byte ≢ 10) begun.old }
        requires last { All (λ byte. byte ≢ 10) last.now }
        ensures adds { OnOk result (EndsLineOf A.answers responder.old begun.old last.now
            responder.new self.old self.new) }
        ensures begun { OnOk result (begun.new ≡ []) }
    {
        if begun.is_empty() {
            return self.answer(alloc, responder, last);
        }
        hold(begun, last)?;
        let line = mem::replace(begun, Bytes::new(alloc));
        self.answer(alloc, responder, line.as_slice())
    }

    /// Answers the line with this body, or with one that begins so and is too long.
    fn answer<A: Responder>(
        &mut self,
        alloc: Global,
        responder: &mut A,
        body: &[u8],
    ) -> Result<(), NoMemory>
        requires { All (λ byte. byte ≢ 10) body.now }
        ensures { OnOk result (AnswersBody A.answers responder.old body.now responder.new
            self.old self.new) }
    {
        if body.len() > LINE_LIMIT {
            return responder.push_unread(alloc, &mut self.replies);
        }
        let is_kept = responder.answer(alloc, body, &mut self.replies)?;
        if !is_kept {
            return Ok(());
        }
        self.acts.append(body)?;
        self.acts.push(b'\n')
    }
}

/// Holds bytes of the begun line, as far as there is room for them.
fn hold(begun: &mut Bytes, bytes: &[u8]) -> Result<(), NoMemory>
    ensures { OnOk result (begun.new ≡ begun_more begun.old bytes.now) }
{
    let room = BEGUN_LIMIT.saturating_sub(begun.len());
    let count = bytes.len().min(room);
    begun.append(&bytes[..count])
}
