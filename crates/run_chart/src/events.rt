ghost use Rattle.std.specs.Prelude.{◌≡◌, ◌++◌, OnOk};
ghost use Rattle.std.specs.List.{enumerate_from, flat_map};
ghost use Rattle.html.specs.Fragment.{as_html};
ghost use Rattle.run_chart.specs.EventTable.{event_row};
ghost use Rattle.run_chart.specs.Labels.{words_at};

use super::cells::{push_fields, push_known};
use super::knowledge::{labelled, news};
use super::labels::{push_label, push_missing, push_ring};
use super::rows::push_row_start;
use super::shown::{Shown, ShownEvent};
use list_base::{Bytes, NoMemory};
use std::alloc::Global;

/// Appends the words of each event, and to the table its row.
pub(crate) fn push_events(
    alloc: Global,
    text: &mut Bytes,
    table: &mut Bytes,
    s: &Shown<'_>,
) -> Result<(), NoMemory>
    ensures words { OnOk result (text.new ≡ text.old ++
        as_html (flat_map (words_at s.now.x.now s.now.run.now s.now.finding)
        (enumerate_from 0 s.now.run.now))) }
    ensures rows { OnOk result (table.new ≡ table.old ++
        as_html (flat_map (event_row s.now.x.now s.now.run.now s.now.finding)
        (enumerate_from 0 s.now.run.now))) }
{
    let run = s.run;
    for (index, event) in run.iter().enumerate() {
        let at = ShownEvent {
            x: s.x,
            run,
            finding: s.finding,
            index,
            event,
        };
        push_event(alloc, text, table, &at)?;
    }
    Ok(())
}

/// Appends the ring, the label and the stub's words of the event, and to the table its row.
fn push_event(
    alloc: Global,
    text: &mut Bytes,
    table: &mut Bytes,
    s: &ShownEvent<'_>,
) -> Result<(), NoMemory>
    ensures words { OnOk result (text.new ≡ text.old ++
        as_html (words_at s.now.x.now s.now.run.now s.now.finding (s.now.index, s.now.event.now))) }
    ensures row { OnOk result (table.new ≡ table.old ++
        as_html (event_row s.now.x.now s.now.run.now s.now.finding
        (s.now.index, s.now.event.now))) }
{
    let list = news(alloc, s)?;
    let shown = labelled(alloc, s)?;
    push_ring(text, s)?;
    push_label(alloc, text, s, shown.as_slice())?;
    push_missing(text, s)?;
    push_row_start(table, s)?;
    push_fields(alloc, table, s.x, list.as_slice())?;
    push_known(alloc, table, s)
}
