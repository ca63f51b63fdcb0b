ghost use Rattle.std.specs.Prelude.{◌≡◌, ◌++◌, length, OnOk};
ghost use Rattle.html.specs.Fragment.{as_html};
ghost use Rattle.run_chart.specs.Foot.{chart_foot, clash_foot, open_foot};
ghost use Rattle.run_chart.specs.Place.{rows_end};

use super::finding::Finding;
use super::place::{chart_width, rows_end};
use super::shown::Shown;
use super::wording::{BAD_FOOT, CLASH_FOOT, OPEN_FOOT};
use super::words::{cut, ellipsis};
use html::{Fragment, fill, param_name};
use list_base::{Bytes, NoMemory};

/// Appends what the run shows, below the lifelines.
pub(crate) fn push_foot(text: &mut Bytes, s: &Shown<'_>) -> Result<(), NoMemory>
    ensures { OnOk result (text.new ≡ text.old ++
        as_html (chart_foot s.now.x.now (rows_end (length s.now.run.now)) s.now.finding)) }
{
    let end = rows_end(s.run);
    match s.finding {
        Finding::Clash { param, .. } => push_clash_foot(text, param_name(s.x, param), end),
        Finding::Open { param } => push_open_foot(
            text,
            param_name(s.x, param),
            end,
            chart_width(s.x),
        ),
        Finding::Bad { .. } => fill(text, BAD_FOOT, &[Fragment::Number(end)]),
        Finding::Plain => Ok(()),
    }
}

/// Appends what the two ringed events produce.
fn push_clash_foot(text: &mut Bytes, name: &[u8], end: u64) -> Result<(), NoMemory>
    ensures { OnOk result (text.new ≡ text.old ++ as_html (clash_foot name.now end)) }
{
    fill(
        text,
        CLASH_FOOT,
        &[
            Fragment::Number(end),
            Fragment::Words(cut(18, name)),
            Fragment::Tag(ellipsis(18, name)),
        ],
    )
}

/// Appends a line across the chart, and what no role knows.
fn push_open_foot(text: &mut Bytes, name: &[u8], end: u64, width: u64) -> Result<(), NoMemory>
    ensures { OnOk result (text.new ≡ text.old ++ as_html (open_foot name.now end width)) }
{
    fill(
        text,
        OPEN_FOOT,
        &[
            Fragment::Number(end),
            Fragment::Number(width),
            Fragment::Number(end),
            Fragment::Words(cut(18, name)),
            Fragment::Tag(ellipsis(18, name)),
        ],
    )
}
