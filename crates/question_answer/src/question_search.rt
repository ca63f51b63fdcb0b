use super::answer::Answer;
use super::answering_run::answering_run;
use super::common_question::{all_happened, open_happenings};
use super::known_run::known_run;
use bspl_types::Admitted;
use circuit_clauses::Circuit;
use clause_core::Assignment;
use clause_encoding::{plain_variables, written_is_satisfied};
use list_base::{NoMemory, Seq};
use question_formula::{
    QuestionFormulas, condition_variables_exist, impossible_without_model, model_meets_condition,
    question_circuit,
};
use questions::Question;
use sat_solver::Outcome;
use std::alloc::Global;
use std::marker::Model;
use verdict::{numbers_in_range, search_model};

/// How many models are kept at most, since each of them is tried before a search.
const MOST_MODELS: usize = 64;

/// To how many questions there is one round of a preparation.
const ROUND: usize = 16;

/// How many conflicts a search in it may have.
const PREPARING_CONFLICTS: u32 = 100;

/// Searches of one protocol, which make the clauses that all questions share once, and keep the
/// models that they find: one that meets the condition of a later question answers it with no
/// search. Contracts see the protocol.
#[derive(Drop)]
pub struct QuestionSearch<'a> {
    protocol: &'a Admitted,
    formulas: QuestionFormulas<'a>,
    models: Seq<Assignment>,
}

impl<'a> Model for QuestionSearch<'a> {
    ghost use Rattle.bspl_types.specs.declared.expanded.Expanded.{Expanded as SpecExpanded};
    ghost use Rattle.question_answer.specs.inner.Models.{IsSearchOf};

    ghost Value = { SpecExpanded };

    ghost view = { λ s. s.protocol.now };

    ghost invariant = { λ s. IsSearchOf s.protocol.now s.formulas.protocol s.models };
}

impl<'a> QuestionSearch<'a> {
    ghost use Rattle.std.specs.Prelude.{◌≡◌, ◌≤◌, All, IfOk};
    ghost use Rattle.circuit_clauses.specs.Condition.{condition_of};
    ghost use Rattle.question_formula.specs.Formula.{question_condition};
    ghost use Rattle.questions.specs.Subject.{IsAbout};
    ghost use Rattle.question_answer.specs.Answer.{HasAnswerLogInRange, HasEvidence};
    ghost use Rattle.question_answer.specs.Answer.{HasFittingEvents};
    ghost use Rattle.question_answer.specs.inner.Models.{IsSharedModel};

    /// Makes the shared clauses.
    pub fn new(alloc: Global, protocol: &'a Admitted) -> Result<QuestionSearch<'a>, NoMemory>
        ensures { IfOk result (λ search. search ≡ protocol.now) }
    {
        let formulas = QuestionFormulas::new(alloc, protocol)?;
        let models = Seq::new(alloc);
        Ok(QuestionSearch {
            protocol,
            formulas,
            models,
        })
    }

    /// Looks for models that answer several of the questions each, if there are many, so that fewer
    /// searches are needed. What is open is each question whether one thing happened that no model
    /// answers. A round asks the last that is open, and then whether all can happen that still is.
    pub fn prepare(&mut self, alloc: Global, questions: &[Question]) -> Result<(), NoMemory>
        requires { All (IsAbout self.old) questions.now }
        ensures { self.new ≡ self.old }
    {
        for _ in 0..questions.len() / ROUND {
            if !self.is_last_possible(alloc, questions)? {
                return Ok(());
            }
            self.ask_together(alloc, questions)?;
        }
        Ok(())
    }

    /// Answers the last of the questions that is open, and says whether it is possible.
    fn is_last_possible(&mut self, alloc: Global, questions: &[Question]) -> Result<bool, NoMemory>
        requires { All (IsAbout self.old) questions.now }
        ensures { self.new ≡ self.old }
    {
        let mut open = open_happenings(alloc, self.protocol, self.models.as_slice(), questions)?;
        let Some(last) = open.pop() else {
            return Ok(false);
        };
        let answer = self.answer(alloc, &Question::Happened(last), PREPARING_CONFLICTS)?;
        Ok(matches!(answer, Answer::Possible(_)))
    }

    /// Asks whether all can happen that is open in the questions.
    fn ask_together(&mut self, alloc: Global, questions: &[Question]) -> Result<(), NoMemory>
        requires { All (IsAbout self.old) questions.now }
        ensures { self.new ≡ self.old }
    {
        let mut open = open_happenings(alloc, self.protocol, self.models.as_slice(), questions)?;
        if let Some(last) = open.pop() {
            let all = all_happened(alloc, last, open.as_slice())?;
            self.answer(alloc, &all, PREPARING_CONFLICTS)?;
        }
        Ok(())
    }

    /// Decides whether some legal run gives the answer yes at some key, by the model of an earlier
    /// question if one serves, and else with no more than `conflicts` conflicts in a search. Memory
    /// counts as run out where the formula is too large for a log.
    pub fn answer(
        &mut self,
        alloc: Global,
        q: &Question,
        conflicts: u32,
    ) -> Result<Answer, NoMemory>
        requires about { IsAbout self.old q.now }
        requires some { 1 ≤ conflicts }
        requires few { conflicts ≤ 1000000 }
        ensures right { IfOk result (HasEvidence self.old q.now conflicts) }
        ensures numbers { IfOk result HasAnswerLogInRange }
        ensures fits { IfOk result (HasFittingEvents self.old) }
        ensures same { self.new ≡ self.old }
    {
        let x = self.protocol.expanded();
        let condition = question_circuit(alloc, x, plain_variables(x), q)?;
        match known_run(alloc, self.protocol, self.models.as_slice(), q, &condition)? {
            Some(run) => Ok(Answer::Possible(run)),
            None => self.search(alloc, q, &condition, conflicts),
        }
    }

    /// Decides it by a search under its condition, and keeps the model that it may find.
    fn search(
        &mut self,
        alloc: Global,
        q: &Question,
        condition: &Circuit,
        conflicts: u32,
    ) -> Result<Answer, NoMemory>
        requires about { IsAbout self.old q.now }
        requires condition { condition_of condition.now ≡ question_condition self.old q.now }
        requires some { 1 ≤ conflicts }
        requires few { conflicts ≤ 1000000 }
        ensures right { IfOk result (HasEvidence self.old q.now conflicts) }
        ensures numbers { IfOk result HasAnswerLogInRange }
        ensures fits { IfOk result (HasFittingEvents self.old) }
        ensures same { self.new ≡ self.old }
    {
        // law: the variables of the condition are among those that all questions share
        condition_variables_exist();
        // law: a formula without a model says that no legal run gives the answer yes
        impossible_without_model();
        // laws: a model satisfies what is written, and so meets the condition
        written_is_satisfied();
        model_meets_condition();
        // law: the numbers of a log over few clauses and variables are in range
        numbers_in_range();
        self.formulas.put(alloc, condition)?;
        match search_model(alloc, self.formulas.formula(), conflicts)? {
            Outcome::Sat(assignment) => {
                let run = answering_run(alloc, self.protocol, q, &assignment)?;
                self.keep(assignment)?;
                Ok(Answer::Possible(run))
            }
            Outcome::Unsat(log) => Ok(Answer::Impossible(log)),
            Outcome::Budget(log) => Ok(Answer::Undecided(log)),
        }
    }

    /// Keeps the model for later questions, if there is room.
    fn keep(&mut self, model: Assignment) -> Result<(), NoMemory>
        requires { IsSharedModel self.old model }
        ensures { self.new ≡ self.old }
    {
        if self.models.len() < MOST_MODELS {
            self.models.push(model)?;
        }
        Ok(())
    }
}
