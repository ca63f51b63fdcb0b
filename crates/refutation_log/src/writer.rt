ghost use Rattle.std.specs.Prelude.{◌≡◌, ◌+◌, ◌++◌, IfOk, OnOk};
ghost use Rattle.std.specs.List.{flat_map};
ghost use Rattle.refutation_log.specs.Cursor.{lent_entry};
ghost use Rattle.refutation_log.specs.Entries.{entries};
ghost use Rattle.refutation_log.specs.LogText.{log_text, pivot_text, link_fields};
ghost use Rattle.refutation_log.specs.NumberRange.{LogInRange};
ghost use Rattle.refutation_log.specs.LogText.{step_fields, drop_fields, entry_line};
ghost use Rattle.refutation_log.specs.inner.LineFields.{spaced};
ghost use Rattle.list_base.specs.Lines.{end_line, line_of};

use super::header::title;
use super::log_cursor::EntryRef;
use super::refutation::{Chain, Kind, Link, Log};
use clause_core::Lit;
use list_base::{Bytes, NoMemory};
use std::alloc::Global;
use text_lines::push_decimal;

/// The text of the log, of which `read_log` gives this kind and log again. Its version is 1 exactly
/// if the log removes nothing.
pub fn write_log(alloc: Global, kind: Kind, log: &Log) -> Result<Bytes, NoMemory>
    requires { LogInRange log.now }
    ensures { IfOk result (λ text. text ≡ log_text kind log.now) }
{
    let mut text = Bytes::from_slice(alloc, title(log.version(), kind))?;
    text.push(b'\n')?;
    push_entries(&mut text, log)?;
    Ok(text)
}

/// Appends the lines of the log after the first one, up to `end`. If memory runs out, some of them
/// may have been appended.
pub fn push_entries(text: &mut Bytes, log: &Log) -> Result<(), NoMemory>
    ensures { OnOk result
        (text.new ≡ text.old ++ flat_map entry_line (entries log.now) ++ end_line) }
{
    let mut entries = log.entries();
    while let Some(entry) = entries.next() {
        push_entry(text, entry)?;
    }
    text.append(b"end\n")
}

/// Appends the line of an entry.
fn push_entry(text: &mut Bytes, entry: EntryRef<'_>) -> Result<(), NoMemory>
    ensures { OnOk result (text.new ≡ text.old ++ entry_line (lent_entry entry.entry)) }
{
    match entry {
        EntryRef::Step(step) => push_step(text, step),
        EntryRef::Drop(numbers) => push_drop(text, numbers),
    }
}

/// Appends the line of a removal.
fn push_drop(text: &mut Bytes, numbers: &[u32]) -> Result<(), NoMemory>
    ensures { OnOk result (text.new ≡ text.old ++ line_of (drop_fields numbers.now)) }
{
    text.append(b"drop")?;
    for number in numbers {
        text.push(b' ')?;
        push_decimal(text, u64::from(*number))?;
    }
    text.push(b'\n')
}

/// Appends the line of a step.
fn push_step(text: &mut Bytes, step: &Chain) -> Result<(), NoMemory>
    ensures { OnOk result (text.new ≡ text.old ++ line_of (step_fields step.now)) }
{
    text.append(b"step ")?;
    push_decimal(text, u64::from(step.first))?;
    for link in step.links.as_slice() {
        push_link(text, *link)?;
    }
    text.push(b'\n')
}

/// Appends the fields of a link.
fn push_link(text: &mut Bytes, link: Link) -> Result<(), NoMemory>
    ensures { OnOk result (text.new ≡ text.old ++ spaced (link_fields link)) }
{
    text.push(b' ')?;
    push_pivot(text, link.pivot)?;
    text.push(b' ')?;
    push_decimal(text, u64::from(link.clause))
}

/// Appends the literal, with a minus sign if it is a negation. If memory runs out, a part of it may
/// have been appended.
pub fn push_pivot(text: &mut Bytes, pivot: Lit) -> Result<(), NoMemory>
    ensures { OnOk result (text.new ≡ text.old ++ pivot_text pivot) }
{
    if !pivot.positive {
        text.push(b'-')?;
    }
    push_decimal(text, u64::from(pivot.var))
}
