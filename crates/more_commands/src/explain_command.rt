ghost use Rattle.std.specs.Prelude.{◌≡◌, ◌≤◌, ◌++◌, length, IfErr, IfOk};
ghost use Rattle.bspl_types.specs.Limits.{input_limit};
ghost use Rattle.bspl_tool.specs.Task.{task_rules};
ghost use Rattle.tool_input.specs.Error.{RejectsFor};
ghost use Rattle.more_commands.specs.ExplainAnswer.{AnswersInWords, IsExplainedAnswer};
ghost use Rattle.more_commands.specs.StatusWords.{status_words};

use super::status_words::status_words;
use agent_commands::finish;
use answer_words::verdict_words;
use bspl_tool::Task;
use bspl_types::Admitted;
use command_line::Budget;
use list_base::NoMemory;
use program_frame::Reply;
use std::alloc::Global;
use tool_input::{AnswerError, Status};
use verdict_commands::{VerdictReply, reply_with_verdicts};

/// Answers `explain` on the bytes that the task needs. Agents play on this thread, which is a right
/// way whatever number of threads they were to have. After verdicts of `verify` come words on them,
/// and after another answer those of its task and status.
pub fn explain(
    alloc: Global,
    task: Task,
    protocol: Admitted,
    given: &[u8],
) -> Result<Reply<Status>, AnswerError>
    requires { length given.now ≤ input_limit }
    ensures ok { IfOk result (λ reply.
        AnswersInWords task protocol given.now reply.text reply.status) }
    ensures refused { IfErr result (RejectsFor ((task_rules task).refuses protocol given.now)) }
{
    match task {
        Task::Verify { brief, conflicts } => {
            Ok(explained_verdicts(alloc, brief, conflicts, &protocol)?)
        }
        _ => Ok(with_status_words(task, finish(alloc, task.answer(alloc, protocol, given)?)?)?),
    }
}

/// The text of right verdicts on the protocol, and then their words.
pub fn explained_verdicts(
    alloc: Global,
    brief: bool,
    conflicts: Budget,
    protocol: &Admitted,
) -> Result<Reply<Status>, NoMemory>
    ensures { IfOk result (λ reply.
        IsExplainedAnswer brief conflicts protocol.now reply.text reply.status) }
{
    let VerdictReply { verdicts, reply } = reply_with_verdicts(alloc, brief, conflicts, protocol)?;
    let words = verdict_words(alloc, protocol, &verdicts)?;
    with_words(reply, words.as_slice())
}

/// The reply to the task, after whose text come the words of its status.
fn with_status_words(task: Task, reply: Reply<Status>) -> Result<Reply<Status>, NoMemory>
    ensures { IfOk result (λ explained.
        (explained.text ≡ reply.text ++ status_words task reply.status)
        × (explained.status ≡ reply.status)) }
{
    let words = status_words(task, reply.status);
    with_words(reply, words)
}

/// The reply, after whose text come the words.
pub(crate) fn with_words(reply: Reply<Status>, words: &[u8]) -> Result<Reply<Status>, NoMemory>
    ensures { IfOk result (λ explained. (explained.text ≡ reply.text ++ words.now)
        × (explained.status ≡ reply.status)) }
{
    let Reply { status, mut text } = reply;
    text.append(words)?;
    Ok(Reply { status, text })
}
