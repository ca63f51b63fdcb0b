ghost use Rattle.std.specs.Prelude.{◌≡◌, ◌++◌, OnOk};
ghost use Rattle.std.specs.List.{enumerate_from, flat_map};
ghost use Rattle.bspl_types.specs.History.{IsRun};
ghost use Rattle.html.specs.Fragment.{as_html};
ghost use Rattle.run_chart.specs.Chart.{chart, chart_body};
ghost use Rattle.run_chart.specs.EventTable.{event_row};
ghost use Rattle.run_chart.specs.Frame.{chart_description, chart_head, chart_title};

use super::events::push_events;
use super::finding::Finding;
use super::foot::push_foot;
use super::lifelines::{push_described, push_lifelines};
use super::place::{chart_height, chart_width, rows_end};
use super::shown::Shown;
use super::strokes::push_strokes;
use super::wording::{
    BAD_TITLE, CHART, CHART_END, CLASH_TITLE, DESCRIPTION, DESCRIPTION_END, EVENTS, LEGEND,
    OPEN_TITLE, PLAIN_TITLE, STYLE,
};
use bspl_types::{Admitted, Event, Expanded};
use html::{Fragment, TABLE_END, fill, param_name};
use list_base::{Bytes, NoMemory};
use std::alloc::Global;

/// Appends the sequence chart of the run, which marks what the run shows, and beside it the table
/// of the run's events, for which it takes memory.
pub fn push_chart(
    alloc: Global,
    text: &mut Bytes,
    a: &Admitted,
    run: &[Event],
    finding: Finding,
) -> Result<(), NoMemory>
    requires { IsRun a.now run.now }
    ensures { OnOk result (text.new ≡ text.old ++ as_html (chart a.now run.now finding)) }
{
    let x = a.expanded();
    push_parts(alloc, text, &Shown { x, run, finding })
}

/// Appends the parts of the chart, one after another.
fn push_parts(alloc: Global, text: &mut Bytes, s: &Shown<'_>) -> Result<(), NoMemory>
    ensures { OnOk result (text.new ≡
        text.old ++ as_html (chart s.now.x.now s.now.run.now s.now.finding)) }
{
    let mut table = Bytes::new(alloc);
    fill(&mut table, EVENTS, &[])?;
    push_head(text, s)?;
    push_body(alloc, text, &mut table, s)?;
    fill(&mut table, TABLE_END, &[])?;
    fill(text, LEGEND, &[])?;
    text.append(table.as_slice())?;
    fill(text, CHART_END, &[])
}

/// Appends what stands before the lifelines.
fn push_head(text: &mut Bytes, s: &Shown<'_>) -> Result<(), NoMemory>
    ensures { OnOk result (text.new ≡
        text.old ++ as_html (chart_head s.now.x.now s.now.run.now s.now.finding)) }
{
    let width = chart_width(s.x);
    let height = chart_height(s.run);
    fill(
        text,
        CHART,
        &[
            Fragment::Number(width),
            Fragment::Number(height),
            Fragment::Number(width),
            Fragment::Number(height),
        ],
    )?;
    push_title(text, s.x, s.finding)?;
    push_description(text, s.x)?;
    fill(text, STYLE, &[])
}

/// Appends what the run shows, as the title.
fn push_title(text: &mut Bytes, x: &Expanded, finding: Finding) -> Result<(), NoMemory>
    ensures { OnOk result (text.new ≡ text.old ++ as_html (chart_title x.now finding)) }
{
    match finding {
        Finding::Clash {
            param,
            first,
            second,
        } => fill(
            text,
            CLASH_TITLE,
            &[
                Fragment::Number(first as u64),
                Fragment::Number(second as u64),
                Fragment::Words(param_name(x, param)),
            ],
        ),
        Finding::Open { param } => {
            fill(text, OPEN_TITLE, &[Fragment::Words(param_name(x, param))])
        }
        Finding::Bad { event } => fill(text, BAD_TITLE, &[Fragment::Number(event as u64)]),
        Finding::Plain => fill(text, PLAIN_TITLE, &[]),
    }
}

/// Appends what the chart is.
fn push_description(text: &mut Bytes, x: &Expanded) -> Result<(), NoMemory>
    ensures { OnOk result (text.new ≡ text.old ++ as_html (chart_description x.now)) }
{
    fill(text, DESCRIPTION, &[])?;
    push_described(text, x.roles.as_slice())?;
    fill(text, DESCRIPTION_END, &[])
}

/// Appends the lifelines, the strokes and the labels, and to the table the rows of the events.
/// What comes later is drawn above.
fn push_body(
    alloc: Global,
    text: &mut Bytes,
    table: &mut Bytes,
    s: &Shown<'_>,
) -> Result<(), NoMemory>
    ensures body { OnOk result (text.new ≡
        text.old ++ as_html (chart_body s.now.x.now s.now.run.now s.now.finding)) }
    ensures rows { OnOk result (table.new ≡ table.old ++
        as_html (flat_map (event_row s.now.x.now s.now.run.now s.now.finding)
        (enumerate_from 0 s.now.run.now))) }
{
    push_lifelines(text, s.x.roles.as_slice(), rows_end(s.run))?;
    push_strokes(text, s)?;
    push_events(alloc, text, table, s)?;
    push_foot(text, s)
}
