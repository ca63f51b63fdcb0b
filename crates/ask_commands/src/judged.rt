use super::answer_text::{protocol_line, push_evidence};
use super::judgement::{is_broken, is_unjudged, push_judgement};
use bspl_types::{Admitted, Expanded};
use list_base::{Bytes, NoMemory};
use protocol_rules::Rule;
use question_answer::Answer;
use question_text::write_spelling;
use std::alloc::Global;
use tool_input::Status;

/// What is known and written of the rules that are judged so far.
#[derive(Drop)]
pub struct Judged {
    pub text: Bytes,
    pub broken: bool,
    pub unjudged: bool,
}

impl Judged {
    ghost use Rattle.std.specs.Prelude.{◌≡◌, ◌++◌, ◌||◌, false, IfOk, OnOk};
    ghost use Rattle.question_answer.specs.Answer.{HasAnswerLogInRange, HasFittingEvents};
    ghost use Rattle.question_text.specs.Tree.{phrase_of};
    ghost use Rattle.ask_commands.specs.AskAnswer.{asked_protocol_line};
    ghost use Rattle.ask_commands.specs.Judgement.{is_broken, is_unjudged, judgement_text};
    ghost use Rattle.ask_commands.specs.Judgement.{rules_status};

    /// No rule is judged; the line of the protocol is written.
    pub fn none(alloc: Global, x: &Expanded) -> Result<Judged, NoMemory>
        ensures text { IfOk result (λ so_far. so_far.text ≡ asked_protocol_line x.now) }
        ensures broken { IfOk result (λ so_far. so_far.broken ≡ false) }
        ensures unjudged { IfOk result (λ so_far. so_far.unjudged ≡ false) }
    {
        Ok(Judged {
            text: protocol_line(alloc, x)?,
            broken: false,
            unjudged: false,
        })
    }

    /// Takes the answer to the question of one rule more.
    pub fn take(
        &mut self,
        alloc: Global,
        a: &Admitted,
        brief: bool,
        rule: &Rule,
        answer: &Answer,
    ) -> Result<(), NoMemory>
        requires fits { HasFittingEvents a.now answer.now }
        requires numbers { HasAnswerLogInRange answer.now }
        ensures text { OnOk result (self.new.text ≡ self.old.text ++
            judgement_text a.now brief rule.now.sense (phrase_of rule.now.question) answer.now) }
        ensures broken { OnOk result
            (self.new.broken ≡ (self.old.broken || is_broken rule.now.sense answer.now)) }
        ensures unjudged { OnOk result
            (self.new.unjudged ≡ (self.old.unjudged || is_unjudged answer.now)) }
    {
        let spelling = write_spelling(alloc, &rule.question)?;
        let spelling = spelling.as_slice();
        push_judgement(&mut self.text, rule.sense, spelling, answer)?;
        push_evidence(alloc, &mut self.text, a, spelling, brief, answer)?;
        self.broken = self.broken || is_broken(rule.sense, answer);
        self.unjudged = self.unjudged || is_unjudged(answer);
        Ok(())
    }

    /// The status of the judgements.
    pub fn status(&self) -> Status
        ensures { result ≡ rules_status self.now.broken self.now.unjudged }
    {
        if self.broken {
            Status::Refuted
        } else if self.unjudged {
            Status::Undecided
        } else {
            Status::Done
        }
    }
}
