ghost use Rattle.clause_core.specs.Clause.{IsAscending, VariablesExist};
ghost use Rattle.sat_trail.specs.Entry.{values_of};
ghost use Rattle.sat_trail.specs.inner.Examination.{IsFinding};

use super::set_literals::Entries;
use clause_core::Lit;

/// What unit propagation finds out about a clause.
#[derive(Clone, Copy, Debug)]
pub enum Finding {
    /// A literal is true, or two have no value.
    Settled,
    /// This literal has no value, and the others are false.
    Forces(Lit),
    /// All its literals are false.
    Falsified,
}

/// What the values of the set literals say of the clause.
pub fn examine(set: &Entries, clause: &[Lit]) -> Finding
    requires exist { VariablesExist set.now.vars clause.now }
    requires ascending { IsAscending clause.now }
    ensures { IsFinding (values_of set.now.entries) clause.now result }
{
    let mut left: Option<Lit> = None;
    for lit in clause {
        match set.value(lit.var) {
            Some(value) => {
                if value == lit.positive {
                    return Finding::Settled;
                }
            }
            None => {
                if left.is_some() {
                    return Finding::Settled;
                }
                left = Some(*lit);
            }
        }
    }
    match left {
        Some(lit) => Finding::Forces(lit),
        None => Finding::Falsified,
    }
}
