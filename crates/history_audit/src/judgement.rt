ghost use Rattle.std.specs.Prelude.{◌≡◌, IfErr, IfOk};
ghost use Rattle.history_audit.specs.Audit.{IsAuditFault};
ghost use Rattle.history_audit.specs.Histories.{AreHistories};
ghost use Rattle.history_audit.specs.inner.Waits.{IsJudged};

use super::audit_no::AuditNo;
use super::bad_place::first_bad_place;
use super::waits::{Waits, all_waits};
use bspl_types::{Expanded, Run};
use list_base::{NoMemory, Seq};
use run_index::RunIndex;
use std::alloc::Global;

/// What the receipts wait for, if no place is bad. The index of the histories lives no longer.
pub(crate) fn judge(alloc: Global, x: &Expanded, histories: &[Run]) -> Result<Seq<Waits>, AuditNo>
    requires { AreHistories x.now histories.now }
    ensures ok { IfOk result (IsJudged x.now histories.now) }
    ensures bad { IfErr result (IsAuditFault x.now histories.now) }
{
    let indices = index_all(alloc, histories)?;
    let waits = all_waits(alloc, x, indices.as_slice(), histories)?;
    match first_bad_place(alloc, x, indices.as_slice(), histories, waits.as_slice())? {
        None => Ok(waits),
        Some(bad) => Err(AuditNo::Bad {
            role: bad.role,
            place: bad.place,
            why: bad.why,
        }),
    }
}

/// The indices over the keys of the histories.
fn index_all<'a>(alloc: Global, histories: &'a [Run]) -> Result<Seq<RunIndex<'a>>, NoMemory>
    ensures { IfOk result (λ indices. indices ≡ histories.now) }
{
    let mut indices = Seq::new(alloc);
    for history in histories {
        indices.push(RunIndex::of(alloc, history.as_slice())?)?;
    }
    Ok(indices)
}
