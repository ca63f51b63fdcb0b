ghost use Rattle.std.specs.Prelude.{◌≡◌, ◌<◌, length};
ghost use Rattle.run_chart.specs.Place.{chart_height, chart_width, column, row, rows_end};

use bspl_types::{Event, Expanded};

/// The middle of a role's column: its lifeline.
pub(crate) fn column(role: u32) -> u64
    ensures { result ≡ column role }
{
    90 + 180 * u64::from(role)
}

/// The height of the row of the event at the index.
pub(crate) fn row(run: &[Event], index: usize) -> u64
    requires { index < length run.now }
    ensures { result ≡ row index }
{
    72 + 40 * index as u64
}

/// The height at which lifelines end.
pub(crate) fn rows_end(run: &[Event]) -> u64
    ensures { result ≡ rows_end (length run.now) }
{
    58 + 40 * run.len() as u64
}

/// The width of the chart.
pub(crate) fn chart_width(x: &Expanded) -> u64
    ensures { result ≡ chart_width (length x.now.roles) }
{
    180 * x.roles.len().max(2) as u64
}

/// The height of the chart.
pub(crate) fn chart_height(run: &[Event]) -> u64
    ensures { result ≡ chart_height (length run.now) }
{
    92 + 40 * run.len() as u64
}
