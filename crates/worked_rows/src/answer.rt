use super::spelling::{append_number, append_spelled};
use super::streams::{Fault, NO_FAULT};
use adapter::OpenGate;
use bspl_io::{MemSink, MemSource};
use bspl_tool::bspl;
use dimacs::run;
use formula_check::dimacs_check;
use list_base::{Bytes, NoMemory};
use more_commands::bspl_more;
use std::alloc::Global;
use std::sync::Wait;
use std::thread::Threads;

/// An exit status and an output.
#[derive(Drop)]
pub(crate) struct Answer {
    pub status: Bytes,
    pub output: Bytes,
}

impl Answer {
    /// Lends both.
    pub(crate) fn lent(&self) -> LentAnswer<'_> {
        LentAnswer {
            status: self.status.as_slice(),
            output: self.output.as_slice(),
        }
    }
}

/// An exit status and an output that are lent.
#[derive(Clone, Copy)]
pub(crate) struct LentAnswer<'a> {
    pub status: &'a [u8],
    pub output: &'a [u8],
}

impl LentAnswer<'_> {
    /// Whether both are the same.
    pub(crate) fn equals(self, other: LentAnswer<'_>) -> bool {
        self.status == other.status && self.output == other.output
    }

    /// Appends the status and the output.
    pub(crate) fn push_to(self, text: &mut Bytes) -> Result<(), NoMemory> {
        text.append(self.status)?;
        text.push(b'\n')?;
        text.append(self.output)
    }
}

/// What the program of the command gives for its arguments and the input.
pub(crate) fn answer_to<H: Threads + Wait + Sync>(
    rt: &H,
    alloc: Global,
    command: &[u8],
    input: &[u8],
) -> Result<Answer, NoMemory> {
    answer_at(rt, alloc, NO_FAULT, command, input)
}

/// The same with a fault.
pub(crate) fn answer_at<H: Threads + Wait + Sync>(
    rt: &H,
    alloc: Global,
    fault: Fault,
    command: &[u8],
    input: &[u8],
) -> Result<Answer, NoMemory> {
    let words = words_of(alloc, command)?;
    let sink = fault.sink(alloc)?;
    answer_to_words(
        rt,
        alloc,
        words.as_slice(),
        fault.source(alloc, input)?,
        sink,
    )
}

/// What the program that the first word names gives for the other words, the source and the sink.
fn answer_to_words<H: Threads + Wait + Sync>(
    rt: &H,
    alloc: Global,
    words: &[String],
    mut source: MemSource,
    mut sink: MemSink,
) -> Result<Answer, NoMemory> {
    let status = status_of(rt, alloc, words, &mut source, &mut sink);
    answer_of(alloc, status, sink.written())
}

/// The answer with this status and this output.
fn answer_of(alloc: Global, status: Option<u8>, output: &[u8]) -> Result<Answer, NoMemory> {
    let status = status_text(alloc, status)?;
    let output = Bytes::from_slice(alloc, output)?;
    Ok(Answer { status, output })
}

/// The number of a status. Without one there was no program.
fn status_text(alloc: Global, status: Option<u8>) -> Result<Bytes, NoMemory> {
    let mut text = Bytes::new(alloc);
    match status {
        Some(number) => append_number(alloc, &mut text, u64::from(number))?,
        None => text.append(b"no such program")?,
    }
    Ok(text)
}

/// The exit status of the program that the first word names.
fn status_of<H: Threads + Wait + Sync>(
    rt: &H,
    alloc: Global,
    words: &[String],
    source: &mut MemSource,
    sink: &mut MemSink,
) -> Option<u8> {
    let (program, args) = words.split_first()?;
    match program.as_str() {
        "bspl" => Some(bspl_status(rt, alloc, args, source, sink)),
        "bspl_more" => Some(more_status(alloc, args, source, sink)),
        "dimacs_sat" => Some(dimacs_status(alloc, args, source, sink)),
        "dimacs_check" => Some(check_status(alloc, args, source, sink)),
        _ => None,
    }
}

fn bspl_status<H: Threads + Wait + Sync>(
    rt: &H,
    alloc: Global,
    args: &[String],
    source: &mut MemSource,
    sink: &mut MemSink,
) -> u8 {
    bspl(rt, alloc, args, source, sink, &OpenGate).number()
}

fn more_status(alloc: Global, args: &[String], source: &mut MemSource, sink: &mut MemSink) -> u8 {
    bspl_more(alloc, args, source, sink).number()
}

fn dimacs_status(alloc: Global, args: &[String], source: &mut MemSource, sink: &mut MemSink) -> u8 {
    run(alloc, args, source, sink).number()
}

fn check_status(alloc: Global, args: &[String], source: &mut MemSource, sink: &mut MemSink) -> u8 {
    dimacs_check(alloc, args, source, sink).number()
}

/// The words of a command, which are parted by blanks.
fn words_of(alloc: Global, command: &[u8]) -> Result<Vec<String>, NoMemory> {
    let mut words = Vec::new(alloc);
    for word in command.split(|b| *b == b' ') {
        if !word.is_empty() {
            words.push(word_of(alloc, word)?)?;
        }
    }
    Ok(words)
}

/// The word as it is spelled; two quotes are the empty one.
fn word_of(alloc: Global, word: &[u8]) -> Result<String, NoMemory> {
    let mut spelled = Bytes::new(alloc);
    if word != b"''".as_slice() {
        append_spelled(alloc, &mut spelled, word, 0)?;
    }
    match str::from_utf8(spelled.as_slice()) {
        Ok(text) => Ok(text.to_string(alloc)?),
        Err(_) => Ok("no text".to_string(alloc)?),
    }
}
