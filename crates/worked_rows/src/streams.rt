use super::spelling::append_number;
use bspl_io::{MemSink, MemSource};
use list_base::{Bytes, NoMemory, NumberList};
use std::alloc::Global;

/// How many bytes a call of a source or of a sink moves at most, and which call of the source and
/// which of the sink fails, counted from 1. No call has the number 0.
#[derive(Clone, Copy)]
pub(crate) struct Fault {
    pub piece: usize,
    pub read: u32,
    pub write: u32,
}

/// No call fails.
pub(crate) const NO_FAULT: Fault = Fault {
    piece: 4096,
    read: 0,
    write: 0,
};

impl Fault {
    /// The source of the input.
    pub(crate) fn source(self, alloc: Global, input: &[u8]) -> Result<MemSource, NoMemory> {
        let fails = NumberList::from_slice(alloc, &[self.read])?;
        let input = Bytes::from_slice(alloc, input)?;
        Ok(MemSource::new(input, self.piece.max(1), fails))
    }

    /// The sink.
    pub(crate) fn sink(self, alloc: Global) -> Result<MemSink, NoMemory> {
        let fails = NumberList::from_slice(alloc, &[self.write])?;
        Ok(MemSink::new(alloc, self.piece.max(1), fails))
    }

    /// Appends the most bytes of a call, and the numbers of the calls that fail.
    pub(crate) fn push_to(self, alloc: Global, text: &mut Bytes) -> Result<(), NoMemory> {
        text.append(b"pieces of ")?;
        append_number(alloc, text, self.piece as u64)?;
        text.append(b", a fault at read ")?;
        append_number(alloc, text, u64::from(self.read))?;
        text.append(b" and at write ")?;
        append_number(alloc, text, u64::from(self.write))?;
        text.push(b'\n')
    }
}

/// How many calls move this number of bytes.
pub(crate) fn calls_of(bytes: usize, piece: usize) -> u32 {
    u32::try_from(bytes.div_ceil(piece.max(1))).unwrap_or(u32::MAX)
}
