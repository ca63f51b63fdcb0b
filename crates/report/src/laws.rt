ghost use Rattle.report.specs.Laws.{ReplayIsOnce};
ghost use Rattle.report.specs.VerdictText.{RightRunsFit};

use role_knowledge::answers_once;

/// A law: a run of an admitted protocol has one replay text.
pub fn replay_is_once()
    ensures { ReplayIsOnce }
{
    // law: one value of a parameter is known first
    answers_once();
}

/// A law: the runs of right answers fit, so their texts can be written.
pub fn right_runs_fit()
    ensures { RightRunsFit }
{}
