ghost use Rattle.std.specs.Prelude.{◌≡◌, IfErr, IfOk};
ghost use Rattle.std.specs.List.{AllZip};
ghost use Rattle.tool_input.specs.Error.{RejectsFor};
ghost use Rattle.ask_commands.specs.AskedRules.{AreAskedRules, IsQuestionOf};
ghost use Rattle.ask_commands.specs.RulesAnswer.{IsFirstRefused, IsRulesRefused, rule_rejection};

use super::question_command::asked;
use super::rule_list::AskedRules;
use bspl_types::{Admitted, Expanded};
use list_base::Seq;
use protocol_rules::{Rule, RuleFault, read_rules};
use questions::Question;
use std::alloc::Global;
use tool_input::{AnswerError, Code, Field, Rejection, error_for, protocol_text};

/// The rules of the protocol in the text with which the input begins, and what they ask.
pub fn asked_rules(
    alloc: Global,
    protocol: &Admitted,
    input: &[u8],
) -> Result<AskedRules, AnswerError>
    ensures ok { IfOk result (AreAskedRules protocol.now input.now) }
    ensures refused { IfErr result (RejectsFor (IsRulesRefused protocol.now input.now)) }
{
    let x = protocol.expanded();
    let rules = match read_rules(alloc, protocol_text(input), x.name.as_slice()) {
        Ok(rules) => rules,
        Err(fault) => return Err(error_for(rule_rejection(fault))),
    };
    let questions = questions_of(alloc, x, rules.as_slice())?;
    Ok(AskedRules { rules, questions })
}

/// The rejection of a line that is no rule, unless memory ran out.
fn rule_rejection(fault: RuleFault) -> Option<Rejection>
    ensures { result ≡ rule_rejection fault }
{
    let (code, number) = match fault {
        RuleFault::Byte(offset) => (1, offset),
        RuleFault::TooLong { count, .. } => (2, count),
        RuleFault::Syntax(offset) => (3, offset),
        RuleFault::NoMemory => return None,
    };
    Some(Rejection::with_one(Code::Q(code), Field::Number(number)))
}

/// The questions of the rules, in their order.
fn questions_of(alloc: Global, x: &Expanded, rules: &[Rule]) -> Result<Seq<Question>, AnswerError>
    ensures ok { IfOk result (AllZip (IsQuestionOf x.now) rules.now) }
    ensures refused { IfErr result (RejectsFor (IsFirstRefused x.now rules.now)) }
{
    let mut questions = Seq::new(alloc);
    for rule in rules {
        let question = asked(alloc, x, &rule.question)?;
        questions.push(question)?;
    }
    Ok(questions)
}
