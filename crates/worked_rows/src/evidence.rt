use super::claim::{log_holds, run_holds};
use list_base::{Bytes, NoMemory};
use std::alloc::Global;
use std::mem;
use std::sync::Wait;
use std::thread::Threads;
use text_lines::split_once;

/// The lines of an output that were taken, and the block of evidence that is being read.
#[derive(Drop)]
struct Verdicts {
    name: Bytes,
    claim: Bytes,
    block: Bytes,
    lines: Bytes,
}

impl Verdicts {
    /// Takes a line. At the end of a block it is tried.
    fn take<H: Threads + Wait + Sync>(
        &mut self,
        rt: &H,
        alloc: Global,
        input: &[u8],
        line: &[u8],
    ) -> Result<(), NoMemory> {
        if self.block.is_empty() && !begins_block(line) {
            return self.take_claim(alloc, line);
        }
        self.block.append(line)?;
        self.block.push(b'\n')?;
        if line == b"end".as_slice() {
            self.end_block(rt, alloc, input)
        } else {
            Ok(())
        }
    }

    /// Tries the block. One that holds leaves a line, any other stays.
    fn end_block<H: Threads + Wait + Sync>(
        &mut self,
        rt: &H,
        alloc: Global,
        input: &[u8],
    ) -> Result<(), NoMemory> {
        let block = mem::replace(&mut self.block, Bytes::new(alloc));
        if self.holds(rt, alloc, input, block.as_slice())? {
            self.push_held(split_once(block.as_slice(), b' ').0)
        } else {
            self.lines.append(block.as_slice())
        }
    }

    /// Whether the block proves the claim before it.
    fn holds<H: Threads + Wait + Sync>(
        &self,
        rt: &H,
        alloc: Global,
        input: &[u8],
        block: &[u8],
    ) -> Result<bool, NoMemory> {
        let name = self.name.as_slice();
        let claim = self.claim.as_slice();
        if block.starts_with(b"log ") {
            log_holds(rt, alloc, name, input, claim, block)
        } else {
            run_holds(rt, alloc, name, input, claim, block)
        }
    }

    /// Leaves a line for a block that begins with the word.
    fn push_held(&mut self, word: &[u8]) -> Result<(), NoMemory> {
        self.lines.append(word)?;
        self.lines.append(b" ..\n")
    }

    /// Takes a line outside the blocks.
    fn take_claim(&mut self, alloc: Global, line: &[u8]) -> Result<(), NoMemory> {
        if let Some(name) = line.strip_prefix(b"protocol ") {
            self.name = Bytes::from_slice(alloc, name)?;
        }
        self.claim = Bytes::from_slice(alloc, line)?;
        self.push_claim(line)
    }

    /// Leaves the line, without the positions of a conflict.
    fn push_claim(&mut self, line: &[u8]) -> Result<(), NoMemory> {
        match line.strip_prefix(b"safety unsafe ") {
            Some(conflict) => {
                self.lines.append(b"safety unsafe ")?;
                self.lines.append(split_once(conflict, b' ').0)?;
            }
            None => self.lines.append(line)?,
        }
        self.lines.push(b'\n')
    }

    /// Takes the lines of an output. A block that does not end stays.
    fn take_output<H: Threads + Wait + Sync>(
        &mut self,
        rt: &H,
        alloc: Global,
        input: &[u8],
        output: &[u8],
    ) -> Result<(), NoMemory> {
        let lines = output.strip_suffix(b"\n").unwrap_or(output);
        for line in lines.split(|b| *b == b'\n') {
            self.take(rt, alloc, input, line)?;
        }
        self.lines.append(self.block.as_slice())
    }
}

/// The output with a line `log ..` or `run ..` for each block of evidence that holds, and without
/// the positions of a conflict.
pub(crate) fn without_evidence<H: Threads + Wait + Sync>(
    rt: &H,
    alloc: Global,
    input: &[u8],
    output: &[u8],
) -> Result<Bytes, NoMemory> {
    let mut verdicts = Verdicts {
        name: Bytes::new(alloc),
        claim: Bytes::new(alloc),
        block: Bytes::new(alloc),
        lines: Bytes::new(alloc),
    };
    verdicts.take_output(rt, alloc, input, output)?;
    Ok(verdicts.lines)
}

/// Whether a log or a run begins with the line.
fn begins_block(line: &[u8]) -> bool {
    line.starts_with(b"log ") || line == b"run 1".as_slice()
}
