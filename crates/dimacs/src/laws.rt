ghost use Rattle.dimacs.specs.RefusedLine.{StopsOnce};
ghost use Rattle.dimacs.specs.FormulaLaws.{HasFewClauses, SatisfiedAsWritten};

/// A law: reading stops at one line of a text at most.
pub fn stops_once()
    ensures { StopsOnce }
{}

/// A law: the formula of a text has few clauses, and what satisfies them satisfies those that are
/// written.
pub fn formulas_are_as_written()
    ensures few { HasFewClauses }
    ensures satisfied { SatisfiedAsWritten }
{}
