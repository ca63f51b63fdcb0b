ghost use Rattle.std.specs.Prelude.{IfErr, IfOk};
ghost use Rattle.std.specs.List.{AllZip};
ghost use Rattle.tool_input.specs.Error.{RejectsFor};
ghost use Rattle.ask_commands.specs.AskedRules.{IsQuestionOf};
ghost use Rattle.ask_commands.specs.RulesAnswer.{AreJudged, IsRulesAnswer, IsRulesRefused};

use super::judged::Judged;
use super::options::AskOptions;
use super::rule_questions::asked_rules;
use bspl_types::Admitted;
use list_base::NoMemory;
use program_frame::Reply;
use protocol_rules::Rule;
use question_answer::QuestionSearch;
use questions::Question;
use std::alloc::Global;
use tool_input::{AnswerError, Status};

/// Answers whether the protocol keeps the rules that stand in its text.
pub fn judge(
    alloc: Global,
    protocol: &Admitted,
    input: &[u8],
    options: AskOptions,
) -> Result<Reply<Status>, AnswerError>
    ensures ok { IfOk result (λ reply.
        IsRulesAnswer protocol.now input.now options reply.text reply.status) }
    ensures refused { IfErr result (RejectsFor (IsRulesRefused protocol.now input.now)) }
{
    let asked = asked_rules(alloc, protocol, input)?;
    let rules = asked.rules.as_slice();
    let questions = asked.questions.as_slice();
    Ok(judge_rules(alloc, protocol, rules, questions, options)?)
}

/// What is answered to the questions of the rules.
fn judge_rules(
    alloc: Global,
    protocol: &Admitted,
    rules: &[Rule],
    questions: &[Question],
    options: AskOptions,
) -> Result<Reply<Status>, NoMemory>
    requires { AllZip (IsQuestionOf protocol.now) rules.now questions.now }
    ensures { IfOk result (λ reply.
        AreJudged protocol.now options rules.now reply.text reply.status) }
{
    let mut searches = QuestionSearch::new(alloc, protocol)?;
    searches.prepare(alloc, questions)?;
    let mut so_far = Judged::none(alloc, protocol.expanded())?;
    for index in 0..rules.len() {
        let answer = searches.answer(alloc, &questions[index], options.conflicts.conflicts())?;
        let taken = so_far.take(alloc, protocol, options.brief, &rules[index], &answer);
        drop(answer);
        taken?;
    }
    Ok(Reply {
        status: so_far.status(),
        text: so_far.text,
    })
}
