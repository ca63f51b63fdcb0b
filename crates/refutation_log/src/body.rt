ghost use Rattle.std.specs.Prelude.{All};
ghost use Rattle.std.specs.List.{join_with_byte};
ghost use Rattle.refutation_log.specs.LogText.{entry_fields, drop_fields};
ghost use Rattle.refutation_log.specs.NumberRange.{IsInRange, EntryInRange};
ghost use Rattle.refutation_log.specs.declared.refutation.Entry.TheVariants as entry;
ghost use Rattle.refutation_log.specs.LineParts.{IsReadingAmong, EntryStands};
ghost use Rattle.refutation_log.specs.LineParts.{LineStands, body_of, LineInRange};

use super::drops::drop_of;
use super::line_error::LineError;
use super::refutation::{Entry, Version};
use super::steps::step_of;
use list_base::NumberList;
use std::alloc::Global;

/// A line after the header.
#[derive(Drop)]
pub enum BodyLine {
    /// A step or a removal.
    Entry(Entry),
    /// The line `end`.
    End,
}

/// What the line spells in a text of this version.
pub fn body_line(alloc: Global, version: Version, line: &[u8]) -> Result<BodyLine, LineError>
    ensures { IsReadingAmong (LineStands version) body_of LineInRange line.now result }
{
    if line == b"end".as_slice() {
        return Ok(BodyLine::End);
    }
    Ok(BodyLine::Entry(entry_of(alloc, version, line)?))
}

/// The entry that the line spells in a text of this version.
fn entry_of(alloc: Global, version: Version, line: &[u8]) -> Result<Entry, LineError>
    ensures { IsReadingAmong (EntryStands version)
        (λ entry. join_with_byte 32 (entry_fields entry)) EntryInRange line.now result }
{
    match step_of(alloc, line) {
        Ok(step) => Ok(Entry::Step(step)),
        Err(LineError::Form) => Ok(Entry::Drop(removal_of(alloc, version, line)?)),
        Err(error) => Err(error),
    }
}

/// The numbers of the removal that the line spells, if it may stand in a text of this version.
fn removal_of(alloc: Global, version: Version, line: &[u8]) -> Result<NumberList, LineError>
    ensures { IsReadingAmong (λ numbers. EntryStands version (entry.Drop numbers))
        (λ numbers. join_with_byte 32 (drop_fields numbers)) (All IsInRange) line.now result }
{
    match version {
        Version::One => Err(LineError::Form),
        Version::Two => drop_of(alloc, line),
    }
}
