ghost use Rattle.std.specs.Prelude.{map, IfOk};
ghost use Rattle.std.specs.List.{All};
ghost use Rattle.stamped_history.specs.Entries.{StampsRise};
ghost use Rattle.stamped_history.specs.Merged.{IsMerged};

use super::cursor::{advance, first_cursors, lowest};
use super::history::History;
use bspl_types::{NoMemory, Run};
use std::alloc::Global;

/// All events of the histories in one run, by stamp and then by role.
pub fn merge_histories<H: History>(alloc: Global, histories: &[H]) -> Result<Run, NoMemory>
    requires { All (λ h. StampsRise (H.entries h)) histories.now }
    ensures { IfOk result (IsMerged (map H.entries histories.now)) }
{
    let mut cursors = first_cursors(alloc, histories)?;
    let mut run = Run::new(alloc);
    while let Some(first) = lowest(cursors.as_slice()) {
        run.push(first.entry.event)?;
        let cursor = advance(&histories[first.role], cursors.at(first.role));
        cursors.replace(first.role, cursor);
    }
    Ok(run)
}
