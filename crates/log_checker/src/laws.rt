ghost use Rattle.log_checker.specs.FirstFailure.{AcceptedDoesNotFail, HasOneFailure};
ghost use Rattle.log_checker.specs.FirstFailure.{AcceptedIsUnsatisfiable};
ghost use Rattle.log_checker.specs.FirstFailure.{ClausesDecideAcceptance, ClausesDecideFailure};

use clause_core::{resolvents_agree, resolvents_follow};

/// A law: a log has one first failure at most, and none if it is accepted.
pub fn fails_once()
    ensures failure { HasOneFailure }
    ensures accepted { AcceptedDoesNotFail }
{
    // law: clauses have one resolvent on a pivot at most
    resolvents_agree();
}

/// A law: no valuation satisfies a formula for which a log is accepted.
pub fn accepted_is_unsatisfiable()
    ensures { AcceptedIsUnsatisfiable }
{
    // law: a resolvent holds wherever both clauses do
    resolvents_follow();
}

/// A law: what a log does to a formula it does to each formula with the same clauses.
pub fn clauses_decide()
    ensures accepted { ClausesDecideAcceptance }
    ensures failure { ClausesDecideFailure }
{}
