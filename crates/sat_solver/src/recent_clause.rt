ghost use Rattle.clause_core.specs.Clause.{VariablesExist};

use clause_core::Lit;
use order_propagator::OrderTrail;

/// The last unset literal of the newest clause that is not satisfied (BerkMin, Goldberg and
/// Novikov 2002). The clauses after `mark` are satisfied until the next backjump. The clauses of an
/// order are passed over: once propagation is done, what is left of it can always be completed.
pub fn newest_unsatisfied(trail: &OrderTrail, mark: &mut u32) -> Option<Lit> {
    let first = trail.order_count();
    while *mark > first {
        if let Some(lit) = unset_in(trail, *mark) {
            return Some(lit);
        }
        *mark -= 1;
    }
    None
}

/// The last unset literal in the clause of the number, if a clause has it and it is not satisfied.
fn unset_in(trail: &OrderTrail, number: u32) -> Option<Lit> {
    if !trail.has_clause(number) {
        return None;
    }
    // law: what every trail keeps
    trail.is_trail();
    last_unset(trail, trail.clause(number).lits())
}

/// The last literal that has no value, unless a literal is true.
fn last_unset(trail: &OrderTrail, clause: &[Lit]) -> Option<Lit>
    requires { VariablesExist trail.now.vars clause.now }
{
    let mut unset = None;
    for lit in clause {
        match trail.value(lit.var) {
            None => unset = Some(*lit),
            Some(value) => {
                if value == lit.positive {
                    return None;
                }
            }
        }
    }
    unset
}
