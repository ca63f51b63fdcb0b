ghost use Rattle.formula_check.specs.Laws.{DoneMeansNoModel, RefutedMeansNotAccepted};

use log_checker::fails_once;

/// A law: after status 0 the formula of the input has no model, and after status 1 its log is not
/// accepted.
pub fn accepted_has_no_model()
    ensures accepted { DoneMeansNoModel }
    ensures rejected { RefutedMeansNotAccepted }
{
    // law: a log that is accepted does not fail
    fails_once();
}
