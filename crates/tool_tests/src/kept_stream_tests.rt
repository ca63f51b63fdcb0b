use bspl_io::{MemSink, MemSource};
use kept_lines::{MemJournal, Responder, RestoreRefusal, StreamRefusal, answer_stream, restore};
use list_base::{Bytes, NoMemory, NumberList};
use std::alloc::Global;
use std::test::Fail;

/// Counts the lines `+`, which it keeps, and answers each line with the count so far.
#[derive(Drop)]
struct Counter {
    count: u8,
}

impl Responder for Counter {
    ghost use Rattle.std.specs.Prelude.{◌≡◌, ◌⊎◌, IsTrue, [], ◌∷◌, refl};
    ghost use Rattle.std.proofs.Common.{inr};

    // A line that is not kept leaves the count.
    ghost answers = { λ old line reply is_kept new. IsTrue is_kept ⊎ (new ≡ old) };

    ghost unread = { λ _. 63 ∷ [] };

    fn answer(
        &mut self,
        _alloc: Global,
        body: &[u8],
        replies: &mut Bytes,
    ) -> Result<bool, NoMemory> {
        let is_kept = body.len() == 1 && body[0] == b'+';
        if is_kept {
            self.count = self.count.saturating_add(1);
        }
        replies.push(b'0' + self.count % 10)?;
        Ok(is_kept)
    }

    fn push_unread(&self, _alloc: Global, replies: &mut Bytes) -> Result<(), NoMemory> {
        replies.push(b'?')
    }

    ghost leaves_unread = { λ _ _ _. inr refl };
}

/// How many calls of the journal succeed, which read and which write fails, from 1 or 0 for none,
/// how many bytes may come, how the stream ends, what is kept and what was written.
type Row = (
    u64,
    u32,
    u32,
    u64,
    Option<StreamRefusal>,
    &'static [u8],
    &'static [u8],
);

/// The bytes that were taken ahead. Each read gives four of the others.
const AHEAD: &[u8] = b"+\nx";

const INPUT: &[u8] = b"\n+\n+\nx\n+";

const ROWS: &[Row] = &[
    (9, 0, 0, 11, None, b"+\n+\n+\n", b"11233?"),
    (0, 0, 0, 11, Some(StreamRefusal::JournalFault), b"", b""),
    (1, 0, 0, 11, Some(StreamRefusal::JournalFault), b"+\n", b"1"),
    (
        2,
        0,
        0,
        11,
        Some(StreamRefusal::JournalFault),
        b"+\n+\n",
        b"112",
    ),
    (9, 0, 1, 11, Some(StreamRefusal::WriteFault), b"+\n", b""),
    (
        9,
        0,
        3,
        11,
        Some(StreamRefusal::WriteFault),
        b"+\n+\n+\n",
        b"112",
    ),
    (
        9,
        0,
        4,
        11,
        Some(StreamRefusal::WriteFault),
        b"+\n+\n+\n",
        b"11233",
    ),
    (9, 1, 0, 11, Some(StreamRefusal::ReadFault), b"+\n", b"1"),
    (
        9,
        3,
        0,
        11,
        Some(StreamRefusal::ReadFault),
        b"+\n+\n+\n",
        b"11233",
    ),
    (9, 0, 0, 10, Some(StreamRefusal::TooLong), b"+\n+\n", b"112"),
    (9, 0, 0, 2, Some(StreamRefusal::TooLong), b"", b""),
];

/// A text, and its first line that is not kept.
const UNKEPT: &[(&[u8], u64)] = &[(b"x\n+\n", 1), (b"+\n+", 2), (b"+\n+\n+ \n", 3)];

#[test]
fn lines_are_kept_before_replies_are_written(rt: HostRuntime) -> Result<(), Fail> {
    for (keeps, read, write, limit, refusal, kept, written) in ROWS {
        let mut journal = MemJournal::new(rt.alloc(), *keeps);
        let bytes = Bytes::from_slice(rt.alloc(), INPUT)?;
        let mut input = MemSource::new(bytes, 4, NumberList::from_slice(rt.alloc(), &[*read])?);
        let fails = NumberList::from_slice(rt.alloc(), &[*write])?;
        let mut output = MemSink::new(rt.alloc(), 64, fails);
        let end = answer_stream(
            rt.alloc(),
            Counter { count: 0 },
            AHEAD,
            *limit,
            &mut journal,
            &mut input,
            &mut output,
        );
        assert!(rt; end.err() == *refusal);
        assert!(rt; output.written() == *written);
        let image = journal.crash_image(rt.alloc(), &[], 0)?;
        assert!(rt; image.as_slice() == *kept);
        let again = restore(rt.alloc(), Counter { count: 0 }, *kept)?;
        assert!(rt; 2 * usize::from(again.count) == kept.len());
    }
    Ok(())
}

#[test]
fn only_kept_lines_are_restored(rt: HostRuntime) -> Result<(), Fail> {
    for (text, line) in UNKEPT {
        let end = restore(rt.alloc(), Counter { count: 0 }, *text);
        assert!(rt; end.err() == Some(RestoreRefusal::NotKept { line: *line }));
    }
    Ok(())
}
