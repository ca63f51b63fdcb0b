ghost use Rattle.std.specs.Prelude.{◌≡◌, ◌≤◌, length, IfOk};
ghost use Rattle.dimacs.specs.Output.{Decides, dimacs_input_limit, dimacs_usage, refused_length, refused_line};

use super::answer_text::answer_of;
use super::arguments::Options;
use super::decision::decide;
use super::refusal::Refusal;
use super::status::Status;
use list_base::{Bytes, NoMemory};
use program_frame::Reply;
use std::alloc::Global;
use text_lines::push_decimal;

/// The reply to invalid arguments.
pub fn usage(alloc: Global) -> Result<Reply<Status>, NoMemory>
    ensures { IfOk result (λ reply. (reply.text ≡ dimacs_usage) × (reply.status ≡ Status.Usage)) }
{
    Ok(Reply {
        text: Bytes::from_slice(alloc, b"usage: dimacs_sat [--lrat] [--budget N]\n")?,
        status: Status::Usage,
    })
}

/// The reply to an input that is too long.
pub fn too_long(alloc: Global) -> Result<Reply<Status>, NoMemory>
    ensures { IfOk result (λ reply. (reply.text ≡ refused_length)
        × (reply.status ≡ Status.Refused)) }
{
    Ok(Reply {
        text: Bytes::from_slice(alloc, b"refused length\n")?,
        status: Status::Refused,
    })
}

/// The reply to an input that is not too long.
pub fn decided(alloc: Global, options: Options, text: Bytes) -> Result<Reply<Status>, NoMemory>
    requires some { 1 ≤ options.budget }
    requires few { options.budget ≤ 2147483647 }
    requires short { length text ≤ dimacs_input_limit }
    ensures { IfOk result (λ reply. Decides options text reply.text reply.status) }
{
    match decide(alloc, options, text) {
        Ok(verdict) => Ok(Reply {
            status: verdict.status(),
            text: answer_of(alloc, verdict)?,
        }),
        Err(Refusal::Line(line)) => Ok(Reply {
            text: refused_line(alloc, line)?,
            status: Status::Refused,
        }),
        Err(Refusal::TooMany) => unreachable!(),
        Err(Refusal::NoMemory) => Err(NoMemory),
    }
}

/// The line of a refusal, with the number of the line at which reading stops.
pub fn refused_line(alloc: Global, line: u64) -> Result<Bytes, NoMemory>
    ensures { IfOk result (λ text. text ≡ refused_line line) }
{
    let mut text = Bytes::from_slice(alloc, b"refused line ")?;
    push_decimal(&mut text, line)?;
    text.push(b'\n')?;
    Ok(text)
}
