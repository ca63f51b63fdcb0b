ghost use Rattle.std.specs.Prelude.{◌≡◌, ◌<◌, ◌++◌, length, OnOk};
ghost use Rattle.html.specs.Fragment.{as_html};
ghost use Rattle.run_chart.specs.Drawing.{circle};

use super::place::{column, row};
use bspl_types::Event;
use html::{Fragment, fill};
use list_base::{Bytes, NoMemory};

/// Appends a circle on the lifeline of the role in the row of the index.
pub(crate) fn push_circle(
    text: &mut Bytes,
    template: &[u8],
    run: &[Event],
    role: u32,
    index: usize,
) -> Result<(), NoMemory>
    requires { index < length run.now }
    ensures { OnOk result (text.new ≡ text.old ++ as_html (circle template.now role index)) }
{
    fill(
        text,
        template,
        &[
            Fragment::Number(column(role)),
            Fragment::Number(row(run, index)),
        ],
    )
}
