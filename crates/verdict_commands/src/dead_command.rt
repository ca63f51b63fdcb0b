ghost use Rattle.std.specs.Prelude.{IfOk};
ghost use Rattle.verdict_commands.specs.DeadAnswer.{IsDeadAnswer};

use super::dead_text::Answered;
use bspl_types::{Admitted, NoMemory};
use command_line::Budget;
use enactability::EnactSearch;
use program_frame::Reply;
use std::alloc::Global;
use tool_input::Status;

/// Answers `dead`: of each message, whether some legal run emits it.
pub fn dead(
    alloc: Global,
    brief: bool,
    conflicts: Budget,
    protocol: &Admitted,
) -> Result<Reply<Status>, NoMemory>
    ensures { IfOk result (λ reply.
        IsDeadAnswer brief conflicts protocol.now reply.text reply.status) }
{
    let mut search = EnactSearch::new(alloc, protocol)?;
    let mut so_far = Answered::none(alloc, protocol.expanded())?;
    for message in 0..protocol.expanded().messages.len() as u32 {
        let answer = search.enactable(alloc, message, conflicts.conflicts())?;
        let taken = so_far.take(alloc, protocol, brief, message, &answer);
        drop(answer);
        taken?;
    }
    Ok(Reply {
        status: so_far.status(),
        text: so_far.text,
    })
}
