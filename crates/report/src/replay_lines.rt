ghost use Rattle.std.specs.Prelude.{◌≡◌, ◌∷◌, ◌++◌, OnOk};
ghost use Rattle.std.specs.List.{flat_map};
ghost use Rattle.bspl_types.specs.History.{IsRun};
ghost use Rattle.bspl_types.specs.ValueSpelling.{value_spelling};
ghost use Rattle.run_text.specs.inner.LineFields.{spaced_fields};
ghost use Rattle.report.specs.ReplayLines.{conflict_line, illegal_line, key_line, legal_line};
ghost use Rattle.report.specs.ReplayLines.{reason_fields, status_fields};
ghost use Rattle.report.specs.inner.KeyLines.{AppendsConflict};

use super::fields::{message_name, param_name, push_count, push_field, push_value};
use super::status::Status;
use bspl_types::{Event, Expanded, Key, Value};
use enactment_model::{Conflict, Why};
use list_base::{Bytes, NoMemory};
use run_index::{RunIndex, producers};
use std::alloc::Global;

/// Appends the line of an illegal run.
pub(crate) fn push_illegal(
    text: &mut Bytes,
    x: &Expanded,
    place: usize,
    why: Why,
) -> Result<(), NoMemory>
    ensures { OnOk result (text.new ≡
        text.old ++ illegal_line x.now (record { place = place; why = why })) }
{
    text.append(b"illegal")?;
    push_count(text, place)?;
    push_reason(text, x, why)?;
    text.push(b'\n')
}

/// Appends the fields of the reason.
pub(crate) fn push_reason(text: &mut Bytes, x: &Expanded, why: Why) -> Result<(), NoMemory>
    ensures { OnOk result (text.new ≡ text.old ++ spaced_fields (reason_fields x.now why)) }
{
    match why {
        Why::Missing { param } => {
            push_field(text, b"missing")?;
            push_field(text, param_name(x, param))
        }
        Why::Bound { param, kept } => {
            push_field(text, b"bound")?;
            push_field(text, param_name(x, param))?;
            push_value(text, &kept)
        }
        Why::Other { param, kept } => {
            push_field(text, b"other")?;
            push_field(text, param_name(x, param))?;
            push_value(text, &kept)
        }
        Why::Unsent => push_field(text, b"unsent"),
    }
}

/// Appends the first line of a legal run.
pub(crate) fn push_legal(text: &mut Bytes, run: &[Event]) -> Result<(), NoMemory>
    ensures { OnOk result (text.new ≡ text.old ++ legal_line run.now) }
{
    text.append(b"legal")?;
    push_count(text, run.len())?;
    text.push(b'\n')
}

/// Appends the line of the run's conflict, or that it has none.
pub(crate) fn push_conflict(
    alloc: Global,
    text: &mut Bytes,
    x: &Expanded,
    index: &RunIndex,
) -> Result<(), NoMemory>
    requires { IsRun x.now index.now }
    ensures { OnOk result (AppendsConflict x.now index.now text.old text.new) }
{
    let found = producers(alloc, x, index)?;
    match found {
        Some(found) => push_found(text, x, &found),
        None => text.append(b"no conflict\n"),
    }
}

/// Appends the line of a conflict.
fn push_found(text: &mut Bytes, x: &Expanded, found: &Conflict) -> Result<(), NoMemory>
    ensures { OnOk result (text.new ≡ text.old ++ conflict_line x.now found.now) }
{
    text.append(b"conflict")?;
    push_field(text, param_name(x, found.param))?;
    push_count(text, found.first)?;
    push_count(text, found.second)?;
    text.push(b'\n')
}

/// Appends the line of a key.
pub(crate) fn push_key(
    text: &mut Bytes,
    x: &Expanded,
    key: &Key,
    status: Status,
) -> Result<(), NoMemory>
    ensures { OnOk result (text.new ≡ text.old ++ key_line x.now key.now status) }
{
    text.append(b"key")?;
    push_values(text, key.as_slice())?;
    push_status(text, x, status)?;
    text.push(b'\n')
}

/// Appends a field for each value.
fn push_values(text: &mut Bytes, values: &[Value]) -> Result<(), NoMemory>
    ensures { OnOk result (text.new ≡
        text.old ++ flat_map (λ value. 32 ∷ value_spelling value) values.now) }
{
    for value in values {
        push_value(text, value)?;
    }
    Ok(())
}

/// Appends how an enactment is left.
fn push_status(text: &mut Bytes, x: &Expanded, status: Status) -> Result<(), NoMemory>
    ensures { OnOk result (text.new ≡ text.old ++ spaced_fields (status_fields x.now status)) }
{
    match status {
        Status::Loose { message } => {
            push_field(text, b"loose")?;
            push_field(text, message_name(x, message))
        }
        Status::Incomplete { param } => {
            push_field(text, b"quiet")?;
            push_field(text, b"unbound")?;
            push_field(text, param_name(x, param))
        }
        Status::Complete => {
            push_field(text, b"quiet")?;
            push_field(text, b"bound")
        }
    }
}
