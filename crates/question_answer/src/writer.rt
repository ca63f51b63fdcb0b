ghost use Rattle.std.specs.Prelude.{◌≡◌, IfOk};
ghost use Rattle.refutation_log.specs.LogText.{LogInRange};
ghost use Rattle.question_answer.specs.QuestionLog.{question_log_text};

use super::title::title_front;
use list_base::{Bytes, NoMemory};
use refutation_log::{Log, push_entries};
use std::alloc::Global;

/// The text of the log on the question, which is given as it is spelled. Its version is 1 exactly
/// if the log removes nothing.
pub fn write_question_log(alloc: Global, spelling: &[u8], log: &Log) -> Result<Bytes, NoMemory>
    requires { LogInRange log.now }
    ensures { IfOk result (λ text. text ≡ question_log_text spelling.now log.now) }
{
    let mut text = Bytes::from_slice(alloc, title_front(log.version()))?;
    text.append(spelling)?;
    text.push(b'\n')?;
    push_entries(&mut text, log)?;
    Ok(text)
}
