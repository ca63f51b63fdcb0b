ghost use Rattle.std.specs.Prelude.{All, IfOk, IfSome};
ghost use Rattle.bspl_types.specs.declared.expanded.Expanded.{Expanded as SpecExpanded};
ghost use Rattle.questions.specs.Subject.{IsAbout, IsAboutHappening};
ghost use Rattle.question_answer.specs.inner.Models.{IsSharedModel};

use super::known_run::first_met;
use bspl_types::Admitted;
use clause_core::Assignment;
use clause_encoding::plain_variables;
use list_base::{NoMemory, Seq};
use question_formula::{condition_variables_exist, question_circuit};
use questions::{Happening, Question};
use std::alloc::Global;

/// How many things one question asks for at most, since it is nested as deep.
const MOST_TOGETHER: usize = 64;

/// What those of the questions ask for that ask whether one thing happened and that no model
/// answers, in order; of many the first.
pub(crate) fn open_happenings(
    alloc: Global,
    a: &Admitted,
    models: &[Assignment],
    questions: &[Question],
) -> Result<Seq<Happening>, NoMemory>
    requires about { All (IsAbout a.now) questions.now }
    requires models { All (IsSharedModel a.now) models.now }
    ensures { IfOk result (All (IsAboutHappening a.now)) }
{
    let mut open = Seq::new(alloc);
    for question in questions {
        if open.len() == MOST_TOGETHER {
            return Ok(open);
        }
        if let Some(happening) = open_happening(alloc, a, models, question)? {
            open.push(happening)?;
        }
    }
    Ok(open)
}

/// What the question asks for, if it asks whether one thing happened and no model answers it.
fn open_happening(
    alloc: Global,
    a: &Admitted,
    models: &[Assignment],
    q: &Question,
) -> Result<Option<Happening>, NoMemory>
    requires about { IsAbout a.now q.now }
    requires models { All (IsSharedModel a.now) models.now }
    ensures { IfOk result (λ found. IfSome found (IsAboutHappening a.now)) }
{
    // law: the variables of the condition are among those that all questions share
    condition_variables_exist();
    let Question::Happened(happening) = q else {
        return Ok(None);
    };
    let x = a.expanded();
    let condition = question_circuit(alloc, x, plain_variables(x), q)?;
    match first_met(models, &condition) {
        Some(_) => Ok(None),
        None => Ok(Some(*happening)),
    }
}

/// The question whether all of them happened.
pub(crate) fn all_happened(
    alloc: Global,
    last: Happening,
    others: &[Happening],
) -> Result<Question, NoMemory>
    ensures { (x : SpecExpanded) → IsAboutHappening x last → All (IsAboutHappening x) others.now →
        IfOk result (IsAbout x) }
{
    let mut all = Question::Happened(last);
    for happening in others {
        let one = Question::Happened(*happening);
        all = Question::And(Box::new(alloc, one)?, Box::new(alloc, all)?);
    }
    Ok(all)
}
