ghost use Rattle.std.specs.Prelude.{IfOk};
ghost use Rattle.verdict_commands.specs.ExpandAnswer.{IsExpandAnswer};

use bspl_types::{Admitted, NoMemory};
use program_frame::Reply;
use protocol_expand::print_expanded;
use std::alloc::Global;
use tool_input::Status;

/// Answers `expand`.
pub fn expand(alloc: Global, protocol: &Admitted) -> Result<Reply<Status>, NoMemory>
    ensures { IfOk result (λ reply. IsExpandAnswer protocol.now reply.text reply.status) }
{
    Ok(Reply {
        status: Status::Done,
        text: print_expanded(alloc, protocol.expanded())?,
    })
}
