//! The program that holds the programs against worked rows.
#![tactic(auto)]

mod answer;
mod claim;
mod evidence;
mod question_claim;
mod row;
mod spelling;
mod streams;
mod tally;
mod texts;
mod trial;

use bspl_io::{ReadRefusal, Sink, Source, StdSink, StdSource, WriteRefusal, read_all, write_all};
use list_base::{Bytes, NoMemory};
use std::process::ExitCode;
use std::rt::Files;
use std::sync::Wait;
use std::thread::Threads;
use std::{fs, io};
use tally::Tally;
use texts::{Texts, text_asked};

/// The most bytes of a section.
const SECTION_LIMIT: u64 = 16_777_216;

/// Why there is no report.
enum NoReport {
    /// The rows could not be read, or the report could not be written.
    Fault,
    /// Memory ran out.
    NoMemory,
}

impl From<NoMemory> for NoReport {
    fn from(_error: NoMemory) -> NoReport {
        NoReport::NoMemory
    }
}

impl From<ReadRefusal> for NoReport {
    fn from(refusal: ReadRefusal) -> NoReport {
        match refusal {
            ReadRefusal::NoMemory => NoReport::NoMemory,
            _ => NoReport::Fault,
        }
    }
}

impl From<WriteRefusal> for NoReport {
    fn from(refusal: WriteRefusal) -> NoReport {
        match refusal {
            WriteRefusal::NoMemory => NoReport::NoMemory,
            WriteRefusal::WriteFault => NoReport::Fault,
        }
    }
}

impl From<io::Error> for NoReport {
    fn from(_error: io::Error) -> NoReport {
        NoReport::Fault
    }
}

fn main(rt: HostRuntime) -> ExitCode {
    let mut output = StdSink::new(io::writer(&rt));
    match report(&rt, &mut output) {
        Ok(()) => ExitCode::from(0),
        Err(NoReport::Fault) => ExitCode::from(5),
        Err(NoReport::NoMemory) => ExitCode::from(7),
    }
}

/// Reads the names that the input has, each of a section (`NAME.rows`) or of a list of sections, and
/// the rows of each section, and writes the report on them.
fn report<R: AllocGlobal + Files + Input + Threads + Wait + Sync, W: Sink>(
    rt: &R,
    output: &mut W,
) -> Result<(), NoReport> {
    let names = read_all(rt.alloc(), &mut StdSource::new(rt.reader()), SECTION_LIMIT)?;
    let mut tally = Tally::new(rt.alloc());
    let mut texts = Texts::new(rt.alloc());
    for name in names.as_slice().split(|b| *b == b'\n') {
        if name.ends_with(b".rows") {
            take_section(rt, &mut tally, &mut texts, name)?;
        } else if !name.is_empty() {
            take_list(rt, &mut tally, &mut texts, name)?;
        }
    }
    tally.report_counts(rt.alloc())?;
    write_all(output, tally.report())?;
    Ok(())
}

/// Tries the rows of the sections that the file of this name lists. A line that begins with `# ` is
/// a comment.
fn take_list<R: AllocGlobal + Files + Threads + Wait + Sync>(
    rt: &R,
    tally: &mut Tally,
    texts: &mut Texts,
    name: &[u8],
) -> Result<(), NoReport> {
    let list = read_file(rt, name)?;
    for section in list.as_slice().split(|b| *b == b'\n') {
        if !section.is_empty() && !section.starts_with(b"# ") {
            take_section(rt, tally, texts, section)?;
        }
    }
    Ok(())
}

/// Tries the rows of the section in the file of this name.
fn take_section<R: AllocGlobal + Files + Threads + Wait + Sync>(
    rt: &R,
    tally: &mut Tally,
    texts: &mut Texts,
    name: &[u8],
) -> Result<(), NoReport> {
    let rows = read_file(rt, name)?;
    keep_texts(rt, texts, rows.as_slice())?;
    tally.take_section(rt, rt.alloc(), name, texts, rows.as_slice())?;
    Ok(())
}

/// Reads the texts that the rows name and that were not read before: `@ NAME` asks for the file
/// `NAME.bspl`.
fn keep_texts<R: AllocGlobal + Files>(
    rt: &R,
    texts: &mut Texts,
    rows: &[u8],
) -> Result<(), NoReport> {
    for line in rows.split(|b| *b == b'\n') {
        let Some((name, _)) = text_asked(line) else {
            continue;
        };
        if texts.find(name).is_none() {
            let mut file = Bytes::from_slice(rt.alloc(), name)?;
            file.append(b".bspl")?;
            texts.keep(rt.alloc(), name, read_file(rt, file.as_slice())?)?;
        }
    }
    Ok(())
}

/// All bytes of the file of this name.
fn read_file<R: AllocGlobal + Files>(rt: &R, name: &[u8]) -> Result<Bytes, NoReport> {
    let Ok(path) = str::from_utf8(name) else {
        return Err(NoReport::Fault);
    };
    let mut file = StdSource::new(fs::open(rt, path)?);
    Ok(read_all(rt.alloc(), &mut file, SECTION_LIMIT)?)
}
