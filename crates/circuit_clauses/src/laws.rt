ghost use Rattle.circuit_clauses.specs.Laws.{AssertedIsMet, DeniedIsNotMet, MetIsAsserted};
ghost use Rattle.circuit_clauses.specs.Laws.{VariablesAreFurther};

/// A law: where the clauses of a condition hold, it is met.
#[tactic(auto, using(crate::proofs::MeaningLemmas::asserted_is_met))]
pub fn asserted_is_met()
    ensures { AssertedIsMet }
{}

/// A law: where a condition is met, its further variables have values with which the clauses hold.
#[tactic(auto, using(crate::proofs::ModelLemmas::met_is_asserted))]
pub fn met_is_asserted()
    ensures { MetIsAsserted }
{}

/// A law: a denied condition is met exactly where the condition is not.
#[tactic(auto, using(crate::proofs::DeniedLemmas::denied_is_not_met))]
pub fn denied_is_not_met()
    ensures { DeniedIsNotMet }
{}

/// A law: the clauses have no variables but those of the condition and the further ones.
#[tactic(auto, using(crate::proofs::BelowLemmas::variables_are_further))]
pub fn variables_are_further()
    ensures { VariablesAreFurther }
{}
