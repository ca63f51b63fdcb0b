ghost use Rattle.std.specs.Prelude.{◌<◌, ◌^◌, length};

use bspl_parser::{Document, parse};
use bspl_types::{Bytes, NoMemory, Seq};
use protocol_limits::{Survey, survey};
use protocol_names::ProtocolTable;
use std::alloc::Global;

/// Where a text comes from.
#[derive(Clone, Copy)]
enum Source {
    /// Nine protocols, each with as many references to the next, and the last with the body.
    Chain(usize, &'static [u8]),
    /// A protocol with a private parameter and as many messages.
    Many(u32),
    /// The text as it is.
    Text(&'static [u8]),
}

/// A protocol P, and another that leads to it.
const OUTSIDE: Source = Source::Text(
    b"T { role A parameter out ID key private p, q P(A, in ID) P(A, in ID) None(A, in ID) }
P { role A parameters in ID key, out v private x, y }",
);

/// A protocol P that leads to one with messages.
const MIDDLE: Source = Source::Text(
    b"T { roles A, B parameters out ID key P(A, B, in ID) A -> B: l[in a] }
P { roles A, B parameters in ID key Q(A, B, in ID) }
Q { roles A, B parameters in ID key A -> B: s[in ID] A -> B: m[in y] }",
);

/// The survey of a protocol of a text, which is within the limits.
struct Row {
    source: Source,
    /// The number of the protocol.
    number: u32,
    depth: usize,
    /// For each protocol `1`, if it has a message at the end of a path.
    messages: &'static [u8],
    /// The same for private parameters.
    privates: &'static [u8],
}

const ROWS: &[Row] = &[
    Row {
        source: Source::Chain(1, b"A -> B: m[in ID] "),
        number: 0,
        depth: 8,
        messages: b"111111111",
        privates: b"000000000",
    },
    Row {
        source: Source::Chain(300, b""),
        number: 0,
        depth: 8,
        messages: b"000000000",
        privates: b"000000000",
    },
    Row {
        source: Source::Many(64),
        number: 0,
        depth: 0,
        messages: b"1",
        privates: b"1",
    },
    Row {
        source: OUTSIDE,
        number: 1,
        depth: 0,
        messages: b"10",
        privates: b"11",
    },
    Row {
        source: MIDDLE,
        number: 1,
        depth: 1,
        messages: b"111",
        privates: b"100",
    },
];

/// Adds the number.
fn add_number(alloc: Global, out: &mut Bytes, number: u32) -> Result<(), NoMemory> {
    out.append(number.to_string(alloc)?.as_bytes())
}

/// Adds the head of the protocol of that number.
fn add_head(alloc: Global, out: &mut Bytes, number: u32) -> Result<(), NoMemory> {
    out.append(b" P")?;
    add_number(alloc, out, number)?;
    out.append(b" { roles A, B parameters out ID key ")
}

/// Adds a reference to the protocol of that number.
fn add_reference(alloc: Global, out: &mut Bytes, number: u32) -> Result<(), NoMemory> {
    out.append(b"P")?;
    add_number(alloc, out, number)?;
    out.append(b"(A, B, in ID) ")
}

/// Adds `times` references to the protocol of that number.
fn add_references(
    alloc: Global,
    out: &mut Bytes,
    number: u32,
    times: usize,
) -> Result<(), NoMemory> {
    for _time in 0..times {
        add_reference(alloc, out, number)?;
    }
    Ok(())
}

/// Adds eight protocols, each with as many references to the next.
fn add_links(alloc: Global, out: &mut Bytes, times: usize) -> Result<(), NoMemory> {
    for number in 1..9 {
        add_head(alloc, out, number)?;
        add_references(alloc, out, number.saturating_add(1), times)?;
        out.append(b"}")?;
    }
    Ok(())
}

/// Adds the ninth protocol, with the body.
fn add_last(alloc: Global, out: &mut Bytes, body: &[u8]) -> Result<(), NoMemory> {
    add_head(alloc, out, 9)?;
    out.append(body)?;
    out.append(b"}")
}

/// The text of nine protocols.
fn chain(alloc: Global, times: usize, body: &[u8]) -> Result<Bytes, NoMemory> {
    let mut out = Seq::new(alloc);
    add_links(alloc, &mut out, times)?;
    add_last(alloc, &mut out, body)?;
    Ok(out)
}

/// Adds a protocol with as many messages.
fn add_many(alloc: Global, out: &mut Bytes, count: u32) -> Result<(), NoMemory> {
    out.append(b"Many { roles A, B parameters out ID key private x")?;
    for number in 0..count {
        out.append(b" A -> B: m")?;
        add_number(alloc, out, number)?;
        out.append(b"[in ID]")?;
    }
    out.append(b"}")
}

/// The text of a protocol with as many messages.
fn many(alloc: Global, count: u32) -> Result<Bytes, NoMemory> {
    let mut out = Seq::new(alloc);
    add_many(alloc, &mut out, count)?;
    Ok(out)
}

/// The text.
fn text_of(alloc: Global, source: Source) -> Result<Bytes, NoMemory> {
    match source {
        Source::Chain(times, body) => chain(alloc, times, body),
        Source::Many(count) => many(alloc, count),
        Source::Text(text) => Seq::from_slice(alloc, text),
    }
}

/// Whether the marks are these, `1` for yes.
fn are_marks(marks: &[bool], wanted: &[u8]) -> bool {
    let mut pairs = marks.iter().zip(wanted);
    marks.len() == wanted.len() && pairs.all(|(mark, byte)| *mark == (*byte == b'1'))
}

/// Whether the survey is within the limits, with the row's depth and marks.
fn is_within(found: &Survey, row: &Row) -> bool {
    match found {
        Survey::Within {
            depth,
            messages,
            privates,
        } => *depth == row.depth
            && are_marks(messages.as_slice(), row.messages)
            && are_marks(privates.as_slice(), row.privates),
        Survey::Cycle(_) | Survey::Over { .. } => false,
    }
}

/// Whether the protocol of the row's number has the row's survey.
fn is_surveyed(alloc: Global, table: &ProtocolTable, row: &Row) -> bool
    requires declared { row.now.number < length table.now.protocols.now }
    requires few { length table.now.protocols.now < 2 ^ 32 }
{
    match survey(alloc, table, row.number) {
        Ok(found) => is_within(&found, row),
        Err(NoMemory) => false,
    }
}

/// Whether the document has the protocol of the row's number, and it has the row's survey.
fn is_surveyed_in(alloc: Global, document: &Document, row: &Row) -> bool {
    let protocols = document.protocols.as_slice();
    if row.number as usize >= protocols.len() || protocols.len() > u32::MAX as usize {
        return false;
    }
    match ProtocolTable::new(alloc, protocols) {
        Ok(table) => is_surveyed(alloc, &table, row),
        Err(NoMemory) => false,
    }
}

/// Whether the text spells a document that has the row's survey.
fn is_surveyed_of(alloc: Global, text: &[u8], row: &Row) -> bool {
    match parse(alloc, text) {
        Ok(document) => is_surveyed_in(alloc, &document, row),
        Err(_) => false,
    }
}

/// Whether the row's text has the row's survey.
fn is_passed(alloc: Global, row: &Row) -> bool {
    match text_of(alloc, row.source) {
        Ok(text) => is_surveyed_of(alloc, text.as_slice(), row),
        Err(NoMemory) => false,
    }
}

#[test]
fn a_survey_within_the_limits_has_its_marks(rt: HostRuntime) {
    for row in ROWS {
        assert!(rt; is_passed(rt.alloc(), row));
    }
}
