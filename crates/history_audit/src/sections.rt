ghost use Rattle.std.specs.Prelude.{IfOk};
ghost use Rattle.history_audit.specs.HistoryText.{AreSections};
ghost use Rattle.history_audit.specs.inner.Reading.{AreHistoriesOf};

use super::histories::Histories;
use super::section::Section;
use bspl_types::{Expanded, Run};
use list_base::{NoMemory, Seq};
use std::alloc::Global;

/// The histories of the sections; a role without one has none.
pub(crate) fn histories_of(
    alloc: Global,
    x: &Expanded,
    sections: Seq<Section>,
) -> Result<Histories, NoMemory>
    requires { AreSections x.now sections }
    ensures { IfOk result (AreHistoriesOf x.now sections) }
{
    let mut histories = Seq::new(alloc);
    for role in 0..x.roles.len() {
        histories.push(Run::new(alloc))?;
    }
    let mut left = sections;
    while let Some(section) = left.pop() {
        histories.replace(section.role as usize, section.events);
    }
    Ok(histories)
}
