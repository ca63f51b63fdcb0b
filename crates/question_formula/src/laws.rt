ghost use Rattle.question_formula.specs.Laws.{ConditionVariablesExist, ImpossibleWithoutModel};
ghost use Rattle.question_formula.specs.Laws.{MeetingModelExtends, ModelMeetsCondition};
ghost use Rattle.question_formula.specs.Laws.{ModelRunAnswersYes, PossibleExactlyIfModel};
ghost use Rattle.question_formula.specs.Laws.{YesExactlyIfMet};
ghost use Rattle.question_formula.specs.Liveness.{LivenessIsAQuestion};

use circuit_clauses::{asserted_is_met, denied_is_not_met, met_is_asserted};
use clause_encoding::{carriers_are_kinds, order_variables_exist, written_is_satisfied};
use enactment_model::{legal_by_positions, prefix_is_legal};
use first_occurrences::{
    assignment_exists, bound_exactly_if_sent, known_exactly_if_carried,
    occurs_exactly_if_some_event, reports_show, shared_clauses_hold,
};
use witness_replay::{model_shows, run_emits_once, shared_model_has_run};

/// In a legal run that an assignment shows, the answer to a question is yes exactly if the
/// assignment meets the question's condition.
pub fn yes_exactly_if_met()
    ensures { YesExactlyIfMet }
{
    // law: what makes a parameter known at a role are kinds of the protocol
    carriers_are_kinds();
    // laws: which kinds occur in a run, and in its first events
    occurs_exactly_if_some_event();
    // laws: what is known and what is bound is decided by the kinds that occur
    known_exactly_if_carried();
    bound_exactly_if_sent();
    // law: the first events of a legal run are a legal run
    prefix_is_legal();
    // law: a denied condition is met exactly if the condition is not
    denied_is_not_met();
}

/// A model of a question's clauses meets its condition.
pub fn model_meets_condition()
    ensures { ModelMeetsCondition }
{
    // law: where its clauses hold, a condition is met
    asserted_is_met();
}

/// The run of a model is legal, and answers the question with yes.
pub fn model_run_answers_yes()
    ensures { ModelRunAnswersYes }
{
    // laws: the runs of a model of the shared clauses are legal, and the model shows them
    shared_model_has_run();
    model_shows();
    // laws: it meets the condition, and the answer is yes exactly if the condition is met
    model_meets_condition();
    yes_exactly_if_met();
}

/// The variables of a question's condition are among those that all questions share.
pub fn condition_variables_exist()
    ensures { ConditionVariablesExist }
{
    // laws: kinds and pairs of kinds have variables
    carriers_are_kinds();
    order_variables_exist();
}

/// A question is possible exactly if its clauses have a model: nothing is approximated, over any
/// number of keys, values, repeats and losses.
pub fn possible_exactly_if_model()
    ensures { PossibleExactlyIfModel }
{
    // laws: the condition and pairs of kinds have variables
    condition_variables_exist();
    order_variables_exist();
    // laws: a legal run has an assignment that reports it, shows it and satisfies what is shared
    assignment_exists();
    reports_show();
    shared_clauses_hold();
    // law: where a condition is met, its further variables have values
    met_is_asserted();
    // laws: the answer is yes exactly if the condition is met, and a model gives such a run
    yes_exactly_if_met();
    shared_model_has_run();
    model_run_answers_yes();
}

/// A model of what all questions share that meets the condition of one gives a model of its clauses
/// with the same runs: so its run answers that question too.
pub fn meeting_model_extends()
    ensures { MeetingModelExtends }
{
    // laws: the condition and pairs of kinds have variables
    condition_variables_exist();
    order_variables_exist();
    // laws: a legal run has an assignment that reports it, shows it and satisfies what is shared
    assignment_exists();
    reports_show();
    shared_clauses_hold();
    // law: where a condition is met, its further variables have values
    met_is_asserted();
    // law: the answer is yes exactly if the condition is met
    yes_exactly_if_met();
    // laws: a model of the shared clauses has a legal run, and shows it
    shared_model_has_run();
    model_shows();
}

/// A formula without a model says that no legal run answers the question with yes.
pub fn impossible_without_model()
    ensures { ImpossibleWithoutModel }
{
    // law: a question is possible exactly if its clauses have a model
    possible_exactly_if_model();
    // law: an assignment satisfies the clauses exactly if it satisfies what is written
    written_is_satisfied();
}

/// A protocol is live exactly if none of its enactments can come to rest with a public parameter
/// unbound. Where one comes to rest and is not quiet, a message has two instances; the run of a
/// model has one.
pub fn liveness_is_a_question()
    ensures { LivenessIsAQuestion }
{
    // laws: a possible question has a model, and the run of the model answers it
    possible_exactly_if_model();
    model_run_answers_yes();
    // laws: there is such a run, and it emits each message once at most
    shared_model_has_run();
    run_emits_once();
    // law: what is received was emitted before
    legal_by_positions();
    // law: whether a parameter is bound is decided by what is sent
    bound_exactly_if_sent();
}
