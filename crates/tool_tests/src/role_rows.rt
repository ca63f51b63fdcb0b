use super::args::args_of;
use super::journal_place::Place;
use bspl_io::{MemSink, MemSource};
use list_base::{Bytes, NoMemory, NumberList};
use live_role::{RoleEnding, bspl_role};
use std::alloc::Global;

/// A call, and how it ends.
#[derive(Clone, Copy)]
pub(crate) struct Row {
    pub args: &'static str,
    pub input: &'static [u8],
    /// The number of the source's call that fails, from 1, or 0.
    pub read_fault: u32,
    /// The number of the sink's call that fails, from 1, or 0.
    pub write_fault: u32,
    pub ending: RoleEnding,
    pub output: &'static [u8],
}

/// The source of the bytes.
pub(crate) fn source(
    alloc: Global,
    bytes: &[u8],
    piece: usize,
    fault: u32,
) -> Result<MemSource, NoMemory> {
    let fails = NumberList::from_slice(alloc, &[fault])?;
    Ok(MemSource::new(Bytes::from_slice(alloc, bytes)?, piece.max(1), fails))
}

/// The sink.
pub(crate) fn sink(alloc: Global, piece: usize, fault: u32) -> Result<MemSink, NoMemory> {
    Ok(MemSink::new(
        alloc,
        piece.max(1),
        NumberList::from_slice(alloc, &[fault])?,
    ))
}

/// Whether the call ends as the row says, and writes its output, read in pieces of this size.
pub(crate) fn is_answered(alloc: Global, row: &Row, piece: usize) -> Result<bool, NoMemory> {
    let args = args_of(alloc, row.args)?;
    let mut source = source(alloc, row.input, piece, row.read_fault)?;
    let mut sink = sink(alloc, piece, row.write_fault)?;
    let end = bspl_role(alloc, args.as_slice(), &Place::NEW, &mut source, &mut sink);
    Ok(end.ending == row.ending && sink.written() == row.output)
}
