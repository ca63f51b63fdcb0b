ghost use Rattle.std.specs.Prelude.{IfOk};
ghost use Rattle.questions.specs.Subject.{IsAbout};
ghost use Rattle.question_answer.specs.Answer.{IsShownPossible};
ghost use Rattle.question_answer.specs.inner.Models.{IsSharedModel, MeetsQuestion};

use super::first_yes::first_yes;
use bspl_types::{Admitted, Run};
use clause_core::Assignment;
use clause_encoding::plain_variables;
use enactment_model::prefix_is_legal;
use list_base::NoMemory;
use question_formula::{meeting_model_extends, model_run_answers_yes};
use questions::Question;
use std::alloc::Global;
use witness_replay::{first_events, key_of_ones, order_run, shared_model_has_run};

/// The run of a model of what all questions share that meets the condition of the question, cut at
/// the first moment at which the answer is yes.
pub(crate) fn answering_run(
    alloc: Global,
    a: &Admitted,
    q: &Question,
    assignment: &Assignment,
) -> Result<Run, NoMemory>
    requires about { IsAbout a.now q.now }
    requires model { IsSharedModel a.now assignment.now }
    requires meets { MeetsQuestion a.now q.now assignment.now }
    ensures { IfOk result (IsShownPossible a.now q.now) }
{
    // law: the protocol is admitted, so it has a key
    a.is_admitted();
    // laws: the run is that of a model of the question's clauses, so the answer is yes at its end
    meeting_model_extends();
    model_run_answers_yes();
    // law: such a run is under the key of ones
    shared_model_has_run();
    // law: the first events of a legal run are legal
    prefix_is_legal();
    let x = a.expanded();
    let whole = order_run(alloc, a, plain_variables(x), assignment)?;
    let key = key_of_ones(x);
    let moment = first_yes(x, whole.as_slice(), &key, q).unwrap();
    first_events(alloc, whole.as_slice(), moment)
}
