ghost use Rattle.std.specs.Prelude.{◌≡◌};
ghost use Rattle.report.specs.ExitStatus.{verdict_status};

use tool_input::Status;
use verdict::{Liveness, Safety, Verdicts};

/// The status with which a program ends whose answer rests on these verdicts: one that refutes
/// counts first, then one that is undecided.
pub fn verdict_status(verdicts: &Verdicts) -> Status
    ensures { result ≡ verdict_status verdicts.now.safety verdicts.now.liveness }
{
    match (&verdicts.safety, &verdicts.liveness) {
        (Safety::Unsafe { .. }, _) | (_, Liveness::NotLive { .. }) => Status::Refuted,
        (Safety::Undecided(_), _) | (_, Liveness::Undecided(_)) => Status::Undecided,
        (Safety::Safe(_), Liveness::Live(_)) => Status::Done,
    }
}
