ghost use Rattle.std.specs.Prelude.{◌≡◌, length, All, Contains, IfOk, MatchOption};
ghost use Rattle.circuit_clauses.specs.Condition.{IsOver, Meets, condition_of};
ghost use Rattle.clause_core.specs.Assignment.{valuation};
ghost use Rattle.question_formula.specs.Formula.{question_condition};
ghost use Rattle.questions.specs.Subject.{IsAbout};
ghost use Rattle.question_answer.specs.Answer.{IsShownPossible};
ghost use Rattle.question_answer.specs.inner.Models.{IsSharedModel, MeetsQuestion};

use super::answering_run::answering_run;
use bspl_types::{Admitted, Run};
use circuit_clauses::{Circuit, is_met};
use clause_core::Assignment;
use list_base::NoMemory;
use question_formula::condition_variables_exist;
use questions::Question;
use std::alloc::Global;

/// The run of the first of the models that meets the condition of the question, if one does.
pub(crate) fn known_run(
    alloc: Global,
    a: &Admitted,
    models: &[Assignment],
    q: &Question,
    condition: &Circuit,
) -> Result<Option<Run>, NoMemory>
    requires about { IsAbout a.now q.now }
    requires condition { condition_of condition.now ≡ question_condition a.now q.now }
    requires models { All (IsSharedModel a.now) models.now }
    ensures { IfOk result (λ found. MatchOption found
        (All (λ model. ¬ MeetsQuestion a.now q.now model) models.now)
        (IsShownPossible a.now q.now)) }
{
    // law: the variables of the condition are among those that all questions share
    condition_variables_exist();
    match first_met(models, condition) {
        Some(model) => Ok(Some(answering_run(alloc, a, q, model)?)),
        None => Ok(None),
    }
}

/// The first of the models that meets the condition.
pub(crate) fn first_met<'m>(models: &'m [Assignment], c: &Circuit) -> Option<&'m Assignment>
    requires { All (λ model. IsOver (length model) (condition_of c.now)) models.now }
    ensures { MatchOption result
        (All (λ model. ¬ Meets (valuation model) (condition_of c.now)) models.now)
        (λ model. Contains models.now model.now ×
        Meets (valuation model.now) (condition_of c.now)) }
{
    for model in models {
        if is_met(c, model) {
            return Some(model);
        }
    }
    None
}
