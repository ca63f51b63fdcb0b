use super::answer::LentAnswer;
use super::row::Row;
use super::streams::{Fault, calls_of};
use list_base::NoMemory;
use std::alloc::Global;

/// The most bytes that a call moves.
const PIECES: [usize; 4] = [1, 8, 16, 4096];

/// The faults at which the row is tried: for each number of bytes each call of the source fails in
/// turn, then each call of the sink. Each time the last number is that of a call that is not made.
pub(crate) fn faults_of(alloc: Global, row: &Row) -> Result<Vec<Fault>, NoMemory> {
    let mut faults = Vec::new(alloc);
    for piece in PIECES {
        if let Some(reads) = row.reads(piece) {
            push_read_faults(&mut faults, piece, reads)?;
            push_write_faults(
                &mut faults,
                piece,
                calls_of(row.wanted().output.len(), piece),
            )?;
        }
    }
    Ok(faults)
}

/// Appends a fault at each call of the source, and at one more.
fn push_read_faults(faults: &mut Vec<Fault>, piece: usize, calls: u32) -> Result<(), NoMemory> {
    for before in 0..=calls {
        let read = before.saturating_add(1);
        faults.push(Fault {
            piece,
            read,
            write: 0,
        })?;
    }
    Ok(())
}

/// Appends a fault at each call of the sink, and at one more.
fn push_write_faults(faults: &mut Vec<Fault>, piece: usize, calls: u32) -> Result<(), NoMemory> {
    for before in 0..=calls {
        let write = before.saturating_add(1);
        faults.push(Fault {
            piece,
            read: 0,
            write,
        })?;
    }
    Ok(())
}

/// The answer that is wanted of the row at the fault. At a call that is not made it is the answer
/// without a fault.
pub(crate) fn wanted_at(row: &Row, fault: Fault) -> LentAnswer<'_> {
    if fault.read > 0 {
        wanted_at_read(row, fault)
    } else {
        wanted_at_write(row.wanted(), fault)
    }
}

/// At a read that fails the program ends with status 5 and has written nothing.
fn wanted_at_read(row: &Row, fault: Fault) -> LentAnswer<'_> {
    if row
        .reads(fault.piece)
        .is_some_and(|reads| fault.read <= reads)
    {
        LentAnswer {
            status: b"5",
            output: b"",
        }
    } else {
        row.wanted()
    }
}

/// At a write that fails the program ends with status 6 and has written what the writes before it
/// took.
fn wanted_at_write(ample: LentAnswer<'_>, fault: Fault) -> LentAnswer<'_> {
    let before = (fault.write as usize).saturating_sub(1);
    let taken = before.saturating_mul(fault.piece);
    if taken < ample.output.len() {
        LentAnswer {
            status: b"6",
            output: &ample.output[..taken],
        }
    } else {
        ample
    }
}
