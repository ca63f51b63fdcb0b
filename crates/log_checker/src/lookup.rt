ghost use Rattle.std.specs.Prelude.{◌↔◌, [], ◌++◌, Contains, IsTrue, IfSome, IfNone};
ghost use Rattle.clause_core.specs.Numbering.{numbered, HasNumber};
ghost use Rattle.log_checker.specs.ChainFailure.{HasNoClause};

use clause_core::Clause;
use order_axioms::{FormulaClauses, LentClause, any_empty};

/// The clause of the number: the formula's clauses come first, then the derived ones.
pub fn clause_of<'a>(
    formula: &'a FormulaClauses<'_>,
    derived: &'a [Clause],
    number: u32,
) -> Option<LentClause<'a>>
    ensures some { IfSome result (HasNumber (numbered (formula.now ++ derived.now)) number) }
    ensures none { IfNone result (HasNoClause (numbered (formula.now ++ derived.now)) number) }
{
    if number == 0 {
        return None;
    }
    let index = number as usize - 1;
    if index < formula.len() {
        formula.get(index)
    } else {
        derived.get(index - formula.len()).map(LentClause::stored)
    }
}

/// Whether a clause of the formula or a derived one is empty.
pub fn has_empty(formula: &FormulaClauses<'_>, derived: &[Clause]) -> bool
    ensures { IsTrue result ↔ Contains (formula.now ++ derived.now) [] }
{
    formula.has_empty() || any_empty(derived)
}
