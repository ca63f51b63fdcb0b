ghost use Rattle.std.specs.Prelude.{◌≡◌, ◌^◌, ◌<◌, ◌≤◌, MatchOption};
ghost use Rattle.circuit_clauses.specs.Asserted.{asserted_count, part_count};
ghost use Rattle.circuit_clauses.specs.Condition.{condition_of};

use super::circuit::Circuit;

/// How many variables beside its own the clauses of the condition have; none if they are more than
/// variables have numbers.
#[cycle(count)]
pub fn further_variables(c: &Circuit) -> Option<u32>
    ensures { MatchOption result (2 ^ 32 ≤ asserted_count (condition_of c.now))
        (λ count. count ≡ asserted_count (condition_of c.now)) }
{
    match c {
        Circuit::Both(left, right) => {
            further_variables(left)?.checked_add(further_variables(right)?)
        }
        Circuit::Either(left, right) => part_variables(left)?.checked_add(part_variables(right)?),
        Circuit::Literal(_) | Circuit::Always | Circuit::Never => Some(0),
    }
}

/// How many those of a part of a disjunction have.
#[cycle(count)]
fn part_variables(c: &Circuit) -> Option<u32>
    ensures { MatchOption result (2 ^ 32 ≤ part_count (condition_of c.now))
        (λ count. count ≡ part_count (condition_of c.now)) }
{
    match c {
        Circuit::Both(left, right) => further_variables(left)?
            .checked_add(further_variables(right)?)?
            .checked_add(1),
        Circuit::Either(left, right) => part_variables(left)?.checked_add(part_variables(right)?),
        Circuit::Always => Some(1),
        Circuit::Literal(_) | Circuit::Never => Some(0),
    }
}

/// How many it has, where they are known to be few.
pub(crate) fn asserted_width(c: &Circuit) -> u32
    requires { asserted_count (condition_of c.now) < 2 ^ 32 }
    ensures { result ≡ asserted_count (condition_of c.now) }
{
    further_variables(c).unwrap()
}
