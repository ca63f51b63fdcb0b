ghost use Rattle.restart_run.specs.Laws.{RestartsAreLegal};

use stamped_history::{extended_stay_explained, histories_merge};

/// A law: whatever is restarted, and whatever the restarts keep, after steps that may happen each
/// merge of the acknowledged events is a legal run, in which each role has its own history.
pub fn restarts_are_legal()
    ensures { RestartsAreLegal }
{
    // law: local histories whose receipts are explained merge into a legal run
    histories_merge();
    // law: one entry more leaves all receipts explained
    extended_stay_explained();
}
