ghost use Rattle.formula_text.specs.Laws.{EnactReadsBack, NamesEachEnactVariable, NamesEachVariable};
ghost use Rattle.formula_text.specs.Laws.{OneEnactText, OneText, ReadsBack};

use clause_encoding::{
    clauses_are_as_many, clauses_are_determined, clauses_are_few, variables_are_small,
};
use enactability::enact_clauses_are_few;

/// A law: the text is in DIMACS form, with exactly the clauses of the formula.
pub fn reads_back()
    ensures property { ReadsBack }
    ensures message { EnactReadsBack }
{
    // law: there is a clause for each that is written
    clauses_are_as_many();
    // laws: a formula of a protocol has few clauses
    clauses_are_few();
    enact_clauses_are_few();
    // law: it has few variables
    variables_are_small();
}

/// A law: the legend has a line for each variable, in the order of their numbers.
pub fn names_each_variable()
    ensures property { NamesEachVariable }
    ensures message { NamesEachEnactVariable }
{}

/// A law: a protocol has one text for a property, and one for a message.
pub fn one_text()
    ensures property { OneText }
    ensures message { OneEnactText }
{
    // law: what is written has one list of clauses
    clauses_are_determined();
}
