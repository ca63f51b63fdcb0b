ghost use Rattle.std.specs.Prelude.{IfErr, IfOk};
ghost use Rattle.ask_commands.specs.AskedRules.{HaveQuestions};
ghost use Rattle.tool_input.specs.Error.{RejectsFor};
ghost use Rattle.more_commands.specs.PageAnswer.{IsPageRefused, RefusesBeside, ShowsInput};
ghost use Rattle.more_commands.specs.inner.Beside.{ShowsBeside};

use super::pages::{page_answer, page_with_agents, page_with_run};
use agent_scripts::Job;
use ask_commands::{AskedRules, asked_rules};
use bspl_types::Admitted;
use program_frame::Reply;
use rejections::{run_rejection, script_rejection};
use run_text::read_run;
use script_text::read_scripts;
use std::alloc::Global;
use tool_input::{AnswerError, Part, Status, error_for, needed_part};

/// Answers `page` on the whole input, which may give rules in the protocol's text, and a run or
/// agents beside it.
pub fn page(alloc: Global, protocol: Admitted, input: &[u8]) -> Result<Reply<Status>, AnswerError>
    ensures ok { IfOk result (λ reply.
        ShowsInput protocol input.now reply.text reply.status) }
    ensures refused { IfErr result (RejectsFor (IsPageRefused protocol input.now)) }
{
    match asked_rules(alloc, &protocol, input) {
        Ok(rules) => page_beside(alloc, protocol, input, &rules),
        Err(error) => Err(error),
    }
}

/// The page of the rules, and of the run or the agents that the input gives beside them.
fn page_beside(
    alloc: Global,
    protocol: Admitted,
    input: &[u8],
    rules: &AskedRules,
) -> Result<Reply<Status>, AnswerError>
    requires { HaveQuestions protocol rules.now }
    ensures ok { IfOk result (λ reply.
        ShowsBeside protocol rules.now.rules input.now reply.text reply.status) }
    ensures refused { IfErr result (RejectsFor (RefusesBeside protocol input.now)) }
{
    if let Ok(part) = needed_part(Some(Part::Run), input) {
        let run = read_run(alloc, &protocol, part).map_err(|refusal| error_for(run_rejection(
            refusal,
        )))?;
        return Ok(page_with_run(alloc, &protocol, rules, run.as_slice())?);
    }
    if let Ok(part) = needed_part(Some(Part::Agents), input) {
        let agents = read_scripts(alloc, part, &protocol).map_err(|refusal| error_for(
            script_rejection(refusal),
        ))?;
        return Ok(page_with_agents(alloc, &Job::of(protocol, agents), rules)?);
    }
    Ok(page_answer(alloc, &protocol, rules)?)
}
