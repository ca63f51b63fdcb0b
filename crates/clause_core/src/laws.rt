ghost use Rattle.clause_core.specs.Clause.{ClausesAreSets, ListsHaveClauses};
ghost use Rattle.clause_core.specs.Resolvent.{ResolventsAgree, ResolventsFollow};

/// A law: two clauses with the same literals are one clause.
#[tactic(auto, using(crate::proofs::ClauseLemmas::equal_clauses))]
pub fn equal_members()
    ensures { ClausesAreSets }
{}

/// A law: each list of literals has a clause with the same literals.
#[tactic(auto, using(crate::proofs::AscendingLemmas::clause_of))]
pub fn lists_have_clauses()
    ensures { ListsHaveClauses }
{}

/// A law: two clauses have at most one resolvent on a pivot.
pub fn resolvents_agree()
    ensures { ResolventsAgree }
{}

/// A law: a resolvent holds wherever both clauses hold (Robinson 1965).
pub fn resolvents_follow()
    ensures { ResolventsFollow }
{}
