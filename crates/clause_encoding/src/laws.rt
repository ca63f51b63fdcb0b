ghost use Rattle.clause_encoding.specs.Laws.{CarriersAreKinds, ClausesAreAsMany};
ghost use Rattle.clause_encoding.specs.Laws.{ClausesAreDetermined, ClausesAreFew};
ghost use Rattle.clause_encoding.specs.Laws.{LivenessClausesAreFew, OrderVariablesExist};
ghost use Rattle.clause_encoding.specs.Laws.{SafetyClausesAreFew};
ghost use Rattle.clause_encoding.specs.Laws.{VariablesAreFew, VariablesAreSmall};
ghost use Rattle.clause_encoding.specs.Laws.{WrittenIsSatisfied};

use clause_core::equal_members;

/// A law: an assignment satisfies the clauses exactly if it satisfies what is written.
pub fn written_is_satisfied()
    ensures { WrittenIsSatisfied }
{}

/// A law: there is a clause for each that is written.
pub fn clauses_are_as_many()
    ensures { ClausesAreAsMany }
{}

/// A law: what is written has one list of clauses.
pub fn clauses_are_determined()
    ensures { ClausesAreDetermined }
{
    // law: clauses with the same literals are equal
    equal_members();
}

/// A law: each formula of a protocol within the limits has at most eight million clauses.
pub fn clauses_are_few()
    ensures { ClausesAreFew }
{}

/// A law: so has the safety formula.
pub fn safety_clauses_are_few()
    ensures { SafetyClausesAreFew }
{}

/// A law: so has the liveness formula.
pub fn liveness_clauses_are_few()
    ensures { LivenessClausesAreFew }
{}

/// A law: the variables of each formula are few, and their numbers are small.
pub fn variables_are_small()
    ensures small { VariablesAreSmall }
    ensures few { VariablesAreFew }
{}

/// A law: what makes a parameter known at a role are kinds of the protocol.
#[tactic(auto, using(crate::proofs::KindLemmas::carriers_are_kinds))]
pub fn carriers_are_kinds()
    ensures { CarriersAreKinds }
{}

/// A law: the variables of two kinds are among those of the formula.
#[tactic(auto, using(crate::proofs::VariableLemmas::before_exists))]
pub fn order_variables_exist()
    ensures { OrderVariablesExist }
{}
