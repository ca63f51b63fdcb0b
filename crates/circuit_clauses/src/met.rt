ghost use Rattle.std.specs.Prelude.{◌↔◌, length, IsTrue};
ghost use Rattle.clause_core.specs.Assignment.{valuation};
ghost use Rattle.circuit_clauses.specs.Condition.{IsOver, Meets, condition_of};

use super::circuit::Circuit;
use clause_core::Assignment;

/// Whether the assignment meets the condition.
pub fn is_met(c: &Circuit, assignment: &Assignment) -> bool
    requires { IsOver (length assignment.now) (condition_of c.now) }
    ensures { IsTrue result ↔ Meets (valuation assignment.now) (condition_of c.now) }
{
    match c {
        Circuit::Literal(lit) => assignment.value(lit.var) == lit.positive,
        Circuit::Both(left, right) => is_met(left, assignment) && is_met(right, assignment),
        Circuit::Either(left, right) => is_met(left, assignment) || is_met(right, assignment),
        Circuit::Always => true,
        Circuit::Never => false,
    }
}
