ghost use Rattle.std.specs.Prelude.{◌≡◌, ◌≢◌, ◌↔◌, ◌<◌, IfOk, IsTrue, length, MatchBool};
ghost use Rattle.std.specs.Prelude.{MatchOption, ℕ};
ghost use Rattle.bspl_types.specs.Admission.{IsAdmitted};
ghost use Rattle.bspl_types.specs.History.{instance_of};
ghost use Rattle.bspl_types.specs.Instance.{Fits};
ghost use Rattle.history_audit.specs.inner.Reading.{BreaksOff, HasSection, IsBegun, IsExtended};
ghost use Rattle.history_audit.specs.inner.Reading.{IsForeign, IsTaken, role_body};

use super::section::Section;
use bspl_types::{Event, Expanded, Run, index_of};
use list_base::{NoMemory, Seq};
use run_text::{event_of, reads_once};
use std::alloc::Global;

/// Takes a line, without its LF, into the sections, if it may come after them. If it may not, the
/// sections are good for nothing any more.
pub(crate) fn take_line(
    alloc: Global,
    x: &Expanded,
    sections: &mut Seq<Section>,
    line: &[u8],
) -> Result<bool, NoMemory>
    requires { IsAdmitted x.now }
    ensures { IfOk result (λ taken. MatchBool taken
        (IsTaken x.now sections.old line.now sections.new)
        (BreaksOff x.now sections.old line.now)) }
{
    reads_once(); // law: a line is that of one event at most
    match role_of_line(x, line) {
        Some(role) => begin_section(alloc, sections, role),
        None => match event_of(x, line) {
            Some(event) => extend_section(x, sections, event),
            None => Ok(false),
        },
    }
}

/// Begins the section of the role, if it has none.
fn begin_section(alloc: Global, sections: &mut Seq<Section>, role: u32) -> Result<bool, NoMemory>
    ensures { IfOk result (λ begun. MatchBool begun (IsBegun sections.old role sections.new)
        (HasSection sections.old role)) }
{
    if has_section(sections.as_slice(), role) {
        return Ok(false);
    }
    sections.push(Section {
        role,
        events: Run::new(alloc),
    })?;
    Ok(true)
}

/// Whether the role has a section.
fn has_section(sections: &[Section], role: u32) -> bool
    ensures { IsTrue result ↔ HasSection sections.now role }
{
    sections.iter().any(|section| section.role == role)
}

/// Puts the event at the end of the last section, if that is its role's.
fn extend_section(x: &Expanded, sections: &mut Seq<Section>, event: Event) -> Result<bool, NoMemory>
    requires { Fits x.now (instance_of event) }
    ensures { IfOk result (λ extended. MatchBool extended
        (IsExtended x.now sections.old event sections.new)
        (IsForeign x.now sections.old event)) }
{
    let Some(last) = sections.pop() else {
        return Ok(false);
    };
    if event.role(x) != last.role {
        return Ok(false);
    }
    let mut section = last;
    section.events.push(event)?;
    sections.push(section)?;
    Ok(true)
}

/// The role whose section the line begins.
fn role_of_line(x: &Expanded, line: &[u8]) -> Option<u32>
    ensures { MatchOption result
        ((role : ℕ) → role < length x.now.roles → line.now ≢ role_body x.now role)
        (λ role. (role < length x.now.roles) × (line.now ≡ role_body x.now role)) }
{
    let name = line.strip_prefix(b"role ")?;
    let index = index_of(x.roles.as_slice(), name)?;
    Some(index as u32)
}
