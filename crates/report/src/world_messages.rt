ghost use Rattle.std.specs.Prelude.{◌≡◌, ◌++◌, ◌≤◌, length, OnOk};
ghost use Rattle.report.specs.inner.Counts.{counted_line, counted_lines};

use super::count::Count;
use super::fields::{message_name, push_count, push_field};
use bspl_types::Expanded;
use list_base::{Bytes, NoMemory};

/// Appends the line of each message.
pub(crate) fn push_messages(
    text: &mut Bytes,
    x: &Expanded,
    counts: &[Count],
) -> Result<(), NoMemory>
    requires { length x.now.messages ≤ length counts.now }
    ensures { OnOk result (text.new ≡
        text.old ++ counted_lines x.now counts.now (length x.now.messages)) }
{
    for message in 0..x.messages.len() as u32 {
        push_message(text, x, message, counts[message as usize])?;
    }
    Ok(())
}

/// Appends the line of the message with these counts.
fn push_message(text: &mut Bytes, x: &Expanded, message: u32, count: Count) -> Result<(), NoMemory>
    ensures { OnOk result (text.new ≡ text.old ++ counted_line x.now message count) }
{
    text.append(b"message")?;
    push_field(text, message_name(x, message))?;
    push_field(text, b"sent")?;
    push_count(text, count.sent)?;
    push_field(text, b"received")?;
    push_count(text, count.received)?;
    text.push(b'\n')
}
