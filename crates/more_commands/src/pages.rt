ghost use Rattle.std.specs.Prelude.{◌≡◌, IfOk, List};
ghost use Rattle.ask_commands.specs.AskedRules.{HaveQuestions};
ghost use Rattle.bspl_types.specs.History.{IsRun};
ghost use Rattle.html.specs.Fragment.{Fragment, as_html};
ghost use Rattle.more_commands.specs.PageAnswer.{IsPageAnswer, ShowsGiven};
ghost use Rattle.more_commands.specs.Given.{Agents, Given, Nothing, Run};
ghost use Rattle.more_commands.specs.inner.Section.{AreAfterRules};
ghost use Rattle.verdict.specs.Verdicts.{AreRightAnswers};

use super::given_sections::{agents_section, run_section};
use agent_scripts::Job;
use ask_commands::AskedRules;
use bspl_types::{Admitted, Event};
use list_base::{Bytes, NoMemory};
use message_fates::message_fates;
use page_sections::{page_text, push_rules};
use program_frame::Reply;
use report::{right_runs_fit, verdict_status};
use std::alloc::Global;
use tool_input::Status;
use verdict::{Verdicts, verify};

/// How many conflicts the search for each verdict, each rule and each message may meet.
const CONFLICTS: u32 = 10_000;

/// The page of right verdicts on the protocol, and of the rules.
pub fn page_answer(
    alloc: Global,
    protocol: &Admitted,
    rules: &AskedRules,
) -> Result<Reply<Status>, NoMemory>
    requires { HaveQuestions protocol.now rules.now }
    ensures { IfOk result (λ reply.
        IsPageAnswer protocol.now rules.now.rules Nothing reply.text reply.status) }
{
    let verdicts = right_verdicts(alloc, protocol)?;
    page_of(alloc, protocol, &verdicts, rules, b"")
}

/// The page of right verdicts on the protocol, of the rules, and of the run.
pub fn page_with_run(
    alloc: Global,
    protocol: &Admitted,
    rules: &AskedRules,
    run: &[Event],
) -> Result<Reply<Status>, NoMemory>
    requires fits { IsRun protocol.now run.now }
    requires questions { HaveQuestions protocol.now rules.now }
    ensures { IfOk result (λ reply.
        IsPageAnswer protocol.now rules.now.rules (Run run.now) reply.text reply.status) }
{
    let verdicts = right_verdicts(alloc, protocol)?;
    let section = run_section(alloc, protocol, run)?;
    page_of(alloc, protocol, &verdicts, rules, section.as_slice())
}

/// The page of right verdicts on the job's protocol, of the rules, and of the world that its agents
/// play if the protocol is found safe.
pub fn page_with_agents(
    alloc: Global,
    job: &Job,
    rules: &AskedRules,
) -> Result<Reply<Status>, NoMemory>
    requires { HaveQuestions job.now.protocol rules.now }
    ensures { IfOk result (λ reply. IsPageAnswer job.now.protocol rules.now.rules
        (Agents job.now.script job.now.plan) reply.text reply.status) }
{
    let protocol = job.admitted();
    let verdicts = right_verdicts(alloc, protocol)?;
    let section = agents_section(alloc, job, &verdicts.safety)?;
    page_of(alloc, protocol, &verdicts, rules, section.as_slice())
}

/// Right verdicts on the protocol.
fn right_verdicts(alloc: Global, protocol: &Admitted) -> Result<Verdicts, NoMemory>
    ensures { IfOk result (AreRightAnswers protocol.now 10000) }
{
    verify(alloc, protocol, CONFLICTS)
}

/// The page of the verdicts, of the rules, of some right fates, and of a section of what is given.
fn page_of(
    alloc: Global,
    protocol: &Admitted,
    verdicts: &Verdicts,
    rules: &AskedRules,
    section: &[u8],
) -> Result<Reply<Status>, NoMemory>
    requires right { AreRightAnswers protocol.now 10000 verdicts.now }
    requires questions { HaveQuestions protocol.now rules.now }
    ensures { IfOk result (λ reply. (given : Given) (shown : List Fragment) →
        ShowsGiven protocol.now verdicts.now.safety given shown → section.now ≡ as_html shown →
        IsPageAnswer protocol.now rules.now.rules given reply.text reply.status) }
{
    // law: the runs of right verdicts fit the protocol
    right_runs_fit();
    let sections = sections_of(alloc, protocol, rules, section)?;
    let fates = message_fates(alloc, protocol, CONFLICTS)?;
    Ok(Reply {
        status: verdict_status(verdicts),
        text: page_text(
            alloc,
            protocol,
            verdicts,
            fates.as_slice(),
            sections.as_slice(),
        )?,
    })
}

/// The section of the rules, and after it that of what is given.
fn sections_of(
    alloc: Global,
    protocol: &Admitted,
    rules: &AskedRules,
    section: &[u8],
) -> Result<Bytes, NoMemory>
    requires { HaveQuestions protocol.now rules.now }
    ensures { IfOk result (AreAfterRules protocol.now 10000 rules.now.rules section.now) }
{
    let mut text = Bytes::new(alloc);
    push_rules(alloc, &mut text, protocol, rules, CONFLICTS)?;
    text.append(section)?;
    Ok(text)
}
