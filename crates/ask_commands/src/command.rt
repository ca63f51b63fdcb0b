use super::check_command::check;
use super::misread::Misread;
use super::options::AskOptions;
use super::question_command::ask;
use super::rules_command::judge;
use bspl_types::Admitted;
use program_frame::Reply;
use question_text::Tree;
use std::alloc::Global;
use tool_input::{AnswerError, Need, Part, Rejection, Status};

/// What the arguments of `ask` ask of a protocol.
#[derive(Drop)]
pub enum AskCommand {
    /// Whether the question is possible.
    Put { question: Tree, options: AskOptions },
    /// Nothing: the text is no question, for this reason.
    Misread(Misread),
    /// Whether a log refutes its question.
    Check,
    /// Whether the protocol keeps the rules in its text.
    Judge(AskOptions),
}

/// What is asked of the protocol of a name.
#[derive(Drop)]
pub struct AskRequest<'a> {
    pub name: &'a [u8],
    pub command: AskCommand,
}

impl AskCommand {
    ghost use Rattle.std.specs.Prelude.{◌≡◌, ◌≤◌, length, IfErr, IfOk};
    ghost use Rattle.bspl_types.specs.Limits.{input_limit};
    ghost use Rattle.tool_input.specs.Error.{RejectsFor};
    ghost use Rattle.ask_commands.specs.AskCommand.{ask_task};
    ghost use Rattle.ask_commands.specs.AskRules.{ask_rules};
    ghost use Rattle.ask_commands.specs.AskTask.{ask_refused_at_once};

    /// What it is given of the input beside the protocol: the whole of it for the rules, with which
    /// it begins.
    pub fn needs(&self) -> Need
        ensures { result ≡ (ask_rules (ask_task self.now)).needs }
    {
        match self {
            AskCommand::Put { .. } | AskCommand::Misread(_) => Need::Nothing,
            AskCommand::Check => Need::Part(Part::Log),
            AskCommand::Judge(_) => Need::Input,
        }
    }

    /// Why it is refused at once, before anything is read.
    pub fn refused_at_once(&self) -> Option<Rejection>
        ensures { result ≡ ask_refused_at_once (ask_task self.now) }
    {
        match self {
            AskCommand::Misread(misread) => Some(misread.rejection()),
            _ => None,
        }
    }

    /// What is answered on the protocol and the bytes that are given beside it.
    pub fn answer(
        &self,
        alloc: Global,
        protocol: &Admitted,
        given: &[u8],
    ) -> Result<Reply<Status>, AnswerError>
        requires { length given.now ≤ input_limit }
        ensures ok { IfOk result (λ reply. (ask_rules (ask_task self.now)).answers
            protocol.now given.now reply.text reply.status) }
        ensures refused { IfErr result
            (RejectsFor ((ask_rules (ask_task self.now)).refuses protocol.now given.now)) }
    {
        match self {
            AskCommand::Put { question, options } => ask(alloc, protocol, question, *options),
            AskCommand::Misread(misread) => Err(AnswerError::Rejected(misread.rejection())),
            AskCommand::Check => check(alloc, protocol, given),
            AskCommand::Judge(options) => judge(alloc, protocol, given, *options),
        }
    }
}
