ghost use Rattle.std.specs.Prelude.{◌≡◌, ◌↔◌, ◌≤◌, None, length, IfErr, IfOk, IfSome, IsTrue};
ghost use Rattle.answer_words.specs.Refusal.{IsRefusalText};
ghost use Rattle.ask_commands.specs.AskCommand.{ask_task};
ghost use Rattle.bspl_types.specs.Limits.{input_limit};
ghost use Rattle.tool_input.specs.Error.{RejectsFor};
ghost use Rattle.tool_input.specs.declared.status.Status.TheVariants.{Refused};
ghost use Rattle.more_commands.specs.ExplainAsk.{IsAskRefusal};
ghost use Rattle.more_commands.specs.Interface.{IsMoreRefusal};
ghost use Rattle.more_commands.specs.Task.{more_own_text, more_refused_at_once};
ghost use Rattle.more_commands.specs.Task.{more_rules};
ghost use Rattle.more_commands.specs.inner.Question.{more_task};

use super::explain_ask::explain_asked;
use super::explain_command::explain;
use super::formula_arguments::FormulaArgs;
use super::formula_command::formula;
use super::lrat_command::lrat;
use super::page_command::page;
use answer_words::refusal_text;
use ask_commands::AskCommand;
use bspl_tool::Task;
use bspl_types::Admitted;
use list_base::{Bytes, NoMemory};
use program_frame::Reply;
use std::alloc::Global;
use tool_input::{AnswerError, Need, Part, Rejection, Status};

/// A command, with what its arguments ask of a protocol.
#[derive(Drop)]
pub enum MoreCommand<'a> {
    /// A question on it, a log on one, or its rules.
    Ask(AskCommand),
    /// A formula of it is printed.
    Formula(FormulaArgs<'a>),
    /// A log on it becomes a proof in LRAT form.
    Lrat,
    /// A page of it is made.
    Page,
    /// A task of the tool is done on it, in words.
    Explain(Task),
    /// A question on it, a log on one, or its rules, in words.
    ExplainAsk(AskCommand),
}

impl MoreCommand<'_> {
    /// What the command is given of the input beside the protocol.
    pub(crate) fn needs(&self) -> Need
        ensures { result ≡ (more_rules (more_task self.now)).needs }
    {
        match self {
            MoreCommand::Ask(command) => command.needs(),
            MoreCommand::Formula(_) => Need::Nothing,
            MoreCommand::Lrat => Need::Part(Part::Log),
            MoreCommand::Page => Need::Input,
            MoreCommand::Explain(task) => task.needs(),
            MoreCommand::ExplainAsk(command) => command.needs(),
        }
    }

    /// Why it is refused at once, before anything is read.
    pub(crate) fn refused_at_once(&self) -> Option<Rejection>
        ensures { result ≡ more_refused_at_once (more_task self.now) }
    {
        match self {
            MoreCommand::Ask(command) => command.refused_at_once(),
            MoreCommand::Formula(args) => args.refused_at_once(),
            MoreCommand::ExplainAsk(command) => command.refused_at_once(),
            _ => None,
        }
    }

    /// Whether it is done on the input.
    pub(crate) fn reads_input(&self) -> bool
        ensures { IsTrue result ↔ (more_own_text (more_task self.now) ≡ None) }
    {
        match self {
            MoreCommand::Explain(task) => task.reads_input(),
            _ => true,
        }
    }

    /// The text that it makes for itself and is done on in place of the input.
    pub(crate) fn own_text(&self, alloc: Global) -> Result<Option<Bytes>, NoMemory>
        ensures text { IfOk result (λ text. text ≡ more_own_text (more_task self.now)) }
        ensures short { IfOk result (λ text.
            IfSome text (λ bytes. length bytes ≤ input_limit)) }
    {
        match self {
            MoreCommand::Explain(task) => task.own_text(alloc),
            _ => Ok(None),
        }
    }

    /// What is answered on the protocol and the bytes that are given beside it.
    pub(crate) fn answer(
        &self,
        alloc: Global,
        protocol: Admitted,
        given: &[u8],
    ) -> Result<Reply<Status>, AnswerError>
        requires { length given.now ≤ input_limit }
        ensures ok { IfOk result (λ reply. (more_rules (more_task self.now)).answers
            protocol given.now reply.text reply.status) }
        ensures refused { IfErr result
            (RejectsFor ((more_rules (more_task self.now)).refuses protocol given.now)) }
    {
        match self {
            MoreCommand::Ask(command) => command.answer(alloc, &protocol, given),
            MoreCommand::Formula(args) => formula(alloc, &protocol, args),
            MoreCommand::Lrat => lrat(alloc, &protocol, given),
            MoreCommand::Page => page(alloc, protocol, given),
            MoreCommand::Explain(task) => explain(alloc, *task, protocol, given),
            MoreCommand::ExplainAsk(command) => explain_asked(alloc, command, &protocol, given),
        }
    }

    /// The reply that refuses it on these bytes.
    pub(crate) fn refused(
        &self,
        alloc: Global,
        input: &[u8],
        rejection: &Rejection,
    ) -> Result<Reply<Status>, NoMemory>
        ensures text { IfOk result (λ reply.
            IsMoreRefusal (more_task self.now) input.now rejection.now reply.text) }
        ensures ends { IfOk result (λ reply. reply.status ≡ Refused) }
    {
        match self {
            MoreCommand::Explain(_) => explained_refusal(alloc, input, rejection),
            MoreCommand::ExplainAsk(command) => asked_refusal(alloc, command, input, rejection),
            _ => tool_input::refused(alloc, rejection),
        }
    }
}

/// The reply that explains why what is asked is refused. What is refused at once has no input.
fn asked_refusal(
    alloc: Global,
    command: &AskCommand,
    input: &[u8],
    rejection: &Rejection,
) -> Result<Reply<Status>, NoMemory>
    ensures text { IfOk result (λ reply.
        IsAskRefusal (ask_task command.now) input.now rejection.now reply.text) }
    ensures ends { IfOk result (λ reply. reply.status ≡ Refused) }
{
    match command {
        AskCommand::Misread(_) => explained_refusal(alloc, b"", rejection),
        AskCommand::Put { .. } | AskCommand::Check | AskCommand::Judge(_) => {
            explained_refusal(alloc, input, rejection)
        }
    }
}

/// The reply that explains the refusal of the input.
fn explained_refusal(
    alloc: Global,
    input: &[u8],
    rejection: &Rejection,
) -> Result<Reply<Status>, NoMemory>
    ensures text { IfOk result (λ reply.
        IsRefusalText input.now rejection.now reply.text) }
    ensures ends { IfOk result (λ reply. reply.status ≡ Refused) }
{
    Ok(Reply {
        status: Status::Refused,
        text: refusal_text(alloc, input, rejection)?,
    })
}
