ghost use Rattle.std.specs.Prelude.{◌≤◌, length, IfErr, IfOk};
ghost use Rattle.ask_commands.specs.AskCommand.{ask_task};
ghost use Rattle.ask_commands.specs.AskRules.{ask_rules};
ghost use Rattle.bspl_types.specs.Limits.{input_limit};
ghost use Rattle.more_commands.specs.ExplainAsk.{AnswersAskInWords};
ghost use Rattle.tool_input.specs.Error.{RejectsFor};

use super::ask_words::ask_words;
use super::explain_command::with_words;
use ask_commands::AskCommand;
use bspl_types::Admitted;
use program_frame::Reply;
use std::alloc::Global;
use tool_input::{AnswerError, Status};

/// Answers `explain ask` on the bytes that the command needs: its answer, and then words on its
/// status.
pub fn explain_asked(
    alloc: Global,
    command: &AskCommand,
    protocol: &Admitted,
    given: &[u8],
) -> Result<Reply<Status>, AnswerError>
    requires { length given.now ≤ input_limit }
    ensures ok { IfOk result (λ reply.
        AnswersAskInWords (ask_task command.now) protocol.now given.now reply.text reply.status) }
    ensures refused { IfErr result
        (RejectsFor ((ask_rules (ask_task command.now)).refuses protocol.now given.now)) }
{
    let reply = command.answer(alloc, protocol, given)?;
    let words = ask_words(command, reply.status);
    Ok(with_words(reply, words)?)
}
