ghost use Rattle.order_axioms.specs.Cycles.{CyclesAreForbidden};
ghost use Rattle.order_axioms.specs.Order.{ClausesForbidCycles, CycleClausesAscend};

/// A law: the literals of a clause that forbids a cycle ascend.
pub fn cycle_clauses_ascend()
    ensures { CycleClausesAscend }
{}

/// A law: each clause of an order forbids a cycle of three kinds, and has three variables.
pub fn clauses_forbid_cycles()
    ensures { ClausesForbidCycles }
{}

/// A law: each cycle of three kinds is forbidden by a clause of their order.
pub fn cycles_are_forbidden()
    ensures { CyclesAreForbidden }
{}
