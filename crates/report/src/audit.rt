ghost use Rattle.std.specs.Prelude.{◌≡◌, ◌++◌, IfOk, OnOk};
ghost use Rattle.std.specs.List.{flat_map};
ghost use Rattle.bspl_types.specs.History.{IsRun};
ghost use Rattle.bspl_types.specs.Expansion.{role_name};
ghost use Rattle.report.specs.AuditText.{bad_place_line, consistent_text, cycle_line, point_fields};
ghost use Rattle.run_text.specs.inner.LineFields.{spaced_fields};

use super::fields::{push_count, push_field};
use super::replay_lines::push_reason;
use bspl_types::{Admitted, Event, Expanded};
use enactment_model::Why;
use history_audit::Point;
use list_base::{Bytes, NoMemory};
use run_text::write_run;
use std::alloc::Global;

/// The text for histories that the run explains.
pub fn consistent_text(alloc: Global, a: &Admitted, run: &[Event]) -> Result<Bytes, NoMemory>
    requires { IsRun a.now run.now }
    ensures { IfOk result (λ text. text ≡ consistent_text a.now run.now) }
{
    let events = write_run(alloc, a, run)?;
    let mut text = Bytes::from_slice(alloc, b"consistent\n")?;
    text.append(events.as_slice())?;
    Ok(text)
}

/// The text for histories with a bad place: the role, the place and the reason.
pub fn bad_place_text(
    alloc: Global,
    x: &Expanded,
    role: u32,
    place: usize,
    why: Why,
) -> Result<Bytes, NoMemory>
    ensures { IfOk result (λ text. text ≡ bad_place_line x.now role place why) }
{
    let mut text = Bytes::from_slice(alloc, b"inconsistent")?;
    push_field(&mut text, name_of_role(x, role))?;
    push_count(&mut text, place)?;
    push_reason(&mut text, x, why)?;
    text.push(b'\n')?;
    Ok(text)
}

/// The text for histories whose receipts wait for one another at these points.
pub fn cycle_text(alloc: Global, x: &Expanded, points: &[Point]) -> Result<Bytes, NoMemory>
    ensures { IfOk result (λ text. text ≡ cycle_line x.now points.now) }
{
    let mut text = Bytes::from_slice(alloc, b"inconsistent cycle")?;
    push_points(&mut text, x, points)?;
    text.push(b'\n')?;
    Ok(text)
}

/// Appends the fields of each point.
fn push_points(text: &mut Bytes, x: &Expanded, points: &[Point]) -> Result<(), NoMemory>
    ensures { OnOk result (text.new ≡
        text.old ++ spaced_fields (flat_map (point_fields x.now) points.now)) }
{
    for point in points {
        push_point(text, x, *point)?;
    }
    Ok(())
}

/// Appends the fields of a point.
fn push_point(text: &mut Bytes, x: &Expanded, point: Point) -> Result<(), NoMemory>
    ensures { OnOk result (text.new ≡ text.old ++ spaced_fields (point_fields x.now point)) }
{
    push_field(text, name_of_role(x, point.role))?;
    push_count(text, point.place)
}

/// The name of the role with this index. Past the last one there is no name.
fn name_of_role(x: &Expanded, role: u32) -> &[u8]
    ensures { result.now ≡ role_name x.now role }
{
    match x.roles.as_slice().get(role as usize) {
        Some(name) => name.as_slice(),
        None => b"",
    }
}
