ghost use Rattle.formula_text.specs.AskedLaws.{NamesEachQuestionVariable, OneQuestionText};
ghost use Rattle.formula_text.specs.AskedLaws.{QuestionReadsBack, SameHasSameFormula};

use clause_encoding::clauses_are_determined;

/// A law: the text of a question's formula is in DIMACS form, with exactly the clauses of the
/// formula.
pub fn question_reads_back()
    ensures { QuestionReadsBack }
{}

/// A law: the legend has a line for each variable, in the order of their numbers.
pub fn names_each_question_variable()
    ensures { NamesEachQuestionVariable }
{}

/// A law: questions that ask the same have the same text.
pub fn same_has_same_formula()
    ensures { SameHasSameFormula }
{}

/// A law: a question as it is spelt has one text.
pub fn one_question_text()
    ensures { OneQuestionText }
{
    // law: what is written has one list of clauses
    clauses_are_determined();
}
