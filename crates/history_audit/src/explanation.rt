ghost use Rattle.std.specs.Prelude.{◌≢◌, IfErr, IfOk};
ghost use Rattle.bspl_types.specs.Admission.{IsAdmitted};
ghost use Rattle.history_audit.specs.declared.audit_no.AuditNo.TheVariants.{NoMemory};
ghost use Rattle.history_audit.specs.Audit.{HasNoExplanation, IsAuditFault};
ghost use Rattle.history_audit.specs.Histories.{AreHistories, Explains};

use super::audit_no::AuditNo;
use super::histories::Histories;
use super::judgement::judge;
use super::laws::{bad_place_is_not_explained, cycle_is_not_explained};
use super::merged_run::merge;
use bspl_types::{Admitted, Expanded, Run};
use std::alloc::Global;

/// One legal run in which each role has its own history, or why there is none: first each history
/// is held against itself and against what the others sent, then all are merged.
pub fn audit(alloc: Global, a: &Admitted, histories: &Histories) -> Result<Run, AuditNo>
    requires { AreHistories a.now histories.now }
    ensures ok { IfOk result (λ run. Explains a.now run histories.now) }
    ensures fault { IfErr result (IsAuditFault a.now histories.now) }

    // If some run explains the histories, one is found, unless memory runs out.
    ensures none { IfErr result (λ no. no ≢ NoMemory → HasNoExplanation a.now histories.now) }
{
    bad_place_is_not_explained(); // law: no run explains histories with a bad place
    cycle_is_not_explained(); // law: nor those with a cycle
    explain(alloc, a.expanded(), histories.as_slice())
}

/// The run, or the fault of the histories.
fn explain(alloc: Global, x: &Expanded, histories: &[Run]) -> Result<Run, AuditNo>
    requires admitted { IsAdmitted x.now }
    requires histories { AreHistories x.now histories.now }
    ensures ok { IfOk result (λ run. Explains x.now run histories.now) }
    ensures fault { IfErr result (IsAuditFault x.now histories.now) }
{
    let waits = judge(alloc, x, histories)?;
    merge(alloc, x, histories, waits.as_slice())
}
