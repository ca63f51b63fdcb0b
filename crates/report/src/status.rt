ghost use Rattle.std.specs.Prelude.{◌≡◌, length, IfOk};
ghost use Rattle.bspl_types.specs.History.{IsRun};
ghost use Rattle.report.specs.Status.{HasStatus};

use bspl_types::{Expanded, Key};
use list_base::NoMemory;
use run_index::{RunIndex, quiet, unbound};
use std::alloc::Global;

/// How a run leaves the enactment of a key.
#[derive(Clone, Copy, Debug)]
pub enum Status {
    /// The message is on its way, or can still be emitted, by its index in the messages.
    Loose { message: u32 },
    /// It is quiet, and the public parameter is not bound, by its index in the parameters.
    Incomplete { param: u32 },
    /// It is quiet, and what is public is bound.
    Complete,
}

/// How the run leaves the enactment of the key.
pub(crate) fn status_of(
    alloc: Global,
    x: &Expanded,
    index: &RunIndex,
    key: &Key,
) -> Result<Status, NoMemory>
    requires fits { IsRun x.now index.now }
    requires key { length key.now ≡ length x.now.keys }
    ensures { IfOk result (HasStatus x.now index.now key.now) }
{
    Ok(match quiet(alloc, x, index, key)? {
        Err(loose) => Status::Loose {
            message: loose.message,
        },
        Ok(()) => match unbound(alloc, x, index, key)? {
            Some(param) => Status::Incomplete { param },
            None => Status::Complete,
        },
    })
}
