ghost use Rattle.std.specs.Prelude.{◌<◌};

use bspl_io::{
    MemSink, MemSource, PlainSink, PlainSource, ReadRefusal, StdSink, StdSource, WriteRefusal,
    read_all, write_all,
};
use list_base::{Bytes, NoMemory, NumberList};
use std::alloc::Global;

const TEXT: &[u8] = b"protocol Ping\nsafe yes\nlive no";

/// What is read, or why it is not.
type Answer = Result<&'static [u8], ReadRefusal>;

/// The length of a source's pieces, the numbers of its calls that fail, the limit, and the answers
/// to a first and to a second call.
type Reading = (usize, &'static [u32], u64, Answer, Answer);

const READS: &[Reading] = &[
    (1, &[99], 30, Ok(TEXT), Ok(b"")),
    (4, &[99], 30, Ok(TEXT), Ok(b"")),
    (7, &[99], 30, Ok(TEXT), Ok(b"")),
    (30, &[], u64::MAX, Ok(TEXT), Ok(b"")),
    (
        16,
        &[2],
        100,
        Err(ReadRefusal::ReadFault),
        Ok(b"fe yes\nlive no"),
    ),
];

/// The limit, and why a text of five bytes is not read.
type Limit = (u64, Option<ReadRefusal>);

const LIMITS: &[Limit] = &[(4, Some(ReadRefusal::TooLong)), (5, None)];

/// The numbers of a sink's calls that fail, whether the text is written, and what is written when
/// one byte more has followed. A sink's pieces have eight bytes.
type Writing = (&'static [u32], Result<(), WriteRefusal>, &'static [u8]);

const WRITES: &[Writing] = &[
    (&[], Ok(()), b"protocol Ping\nsafe yes\nlive no!"),
    (&[3], Err(WriteRefusal::WriteFault), b"protocol Ping\nsa!"),
];

/// Whether that is the answer.
fn is_answer(found: Result<Bytes, ReadRefusal>, wanted: Answer) -> bool {
    match (found, wanted) {
        (Ok(text), Ok(bytes)) => text.as_slice() == bytes,
        (Err(one), Err(other)) => one == other,
        (_, _) => false,
    }
}

/// Whether the source gives the answer.
fn is_read(alloc: Global, source: &mut MemSource, limit: u64, wanted: Answer) -> bool {
    is_answer(read_all(alloc, source, limit), wanted)
}

/// The text in a source whose calls of these numbers fail.
fn source(alloc: Global, piece: usize, fails: &[u32]) -> Result<MemSource, NoMemory>
    requires { 0 < piece }
{
    let fails = NumberList::from_slice(alloc, fails)?;
    let text = Bytes::from_slice(alloc, TEXT)?;
    Ok(MemSource::new(text, piece, fails))
}

/// Whether a source of the row gives its answers; not if its pieces are empty.
fn reads(alloc: Global, (piece, fails, limit, first, second): &Reading) -> bool {
    if *piece == 0 {
        return false;
    }
    match source(alloc, *piece, fails) {
        Ok(mut source) => {
            is_read(alloc, &mut source, *limit, *first)
                && is_read(alloc, &mut source, *limit, *second)
        }
        Err(NoMemory) => false,
    }
}

#[test]
fn reads_pieces_to_the_end_or_a_fault(rt: HostRuntime) {
    for row in READS {
        assert!(rt; reads(rt.alloc(), row));
    }
}

/// Whether a text of five bytes is read, or not, as the row says.
fn is_limited(alloc: Global, (limit, wanted): &Limit) -> bool {
    match Bytes::from_slice(alloc, b"hello") {
        Ok(text) => read_all(alloc, &mut PlainSource::new(text), *limit).err() == *wanted,
        Err(NoMemory) => false,
    }
}

#[test]
fn refuses_a_long_text(rt: HostRuntime) {
    for row in LIMITS {
        assert!(rt; is_limited(rt.alloc(), row));
    }
}

/// Whether the sink gives the answer, takes one byte more, and has then these bytes.
fn is_written(mut sink: MemSink, wanted: Result<(), WriteRefusal>, written: &[u8]) -> bool {
    let answer = write_all(&mut sink, TEXT);
    let more = write_all(&mut sink, b"!");
    answer == wanted && more.is_ok() && sink.written() == written
}

/// Whether a sink of the row gives its answer.
fn writes(alloc: Global, (fails, wanted, written): &Writing) -> bool {
    match NumberList::from_slice(alloc, fails) {
        Ok(fails) => is_written(MemSink::new(alloc, 8, fails), *wanted, written),
        Err(NoMemory) => false,
    }
}

#[test]
fn writes_pieces_until_a_fault(rt: HostRuntime) {
    for row in WRITES {
        assert!(rt; writes(rt.alloc(), row));
    }
}

/// Whether a plain sink has what it is given.
fn writes_plainly(alloc: Global) -> bool {
    let mut sink = PlainSink::new(alloc);
    let answer = write_all(&mut sink, TEXT);
    answer.is_ok() && sink.written() == TEXT
}

/// Whether a buffer of sixteen bytes takes as many of the text, and the rest is a write fault.
fn fills_a_buffer() -> bool {
    let mut kept = [0; 16];
    let mut sink = StdSink::new(kept.as_mut_slice());
    let answer = write_all(&mut sink, TEXT);
    answer == Err(WriteRefusal::WriteFault) && kept.as_slice() == b"protocol Ping\nsa".as_slice()
}

#[test]
fn passes_on_a_reader_and_a_writer(rt: HostRuntime) {
    let mut source = StdSource::new(TEXT);
    assert!(rt; is_answer(read_all(rt.alloc(), &mut source, 30), Ok(TEXT)));
    assert!(rt; writes_plainly(rt.alloc()));
    assert!(rt; fills_a_buffer());
}
