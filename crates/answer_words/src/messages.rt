ghost use Rattle.std.specs.Prelude.{◌≡◌, ◌≤◌, ◌++◌, OnOk, length};
ghost use Rattle.bspl_types.specs.Expansion.{param_name, role_name};
ghost use Rattle.bspl_types.specs.History.{IsRun};
ghost use Rattle.answer_words.specs.Messages.{message_phrase, nth_message};

use super::wording::verdicts;
use bspl_types::{Event, Expanded, Message};
use list_base::{Bytes, NoMemory};

/// The name of the role with that number. Past the last one there is none.
pub(crate) fn role_name(x: &Expanded, role: u32) -> &[u8]
    ensures { result.now ≡ role_name x.now role }
{
    match x.roles.as_slice().get(role as usize) {
        Some(name) => name.as_slice(),
        None => b"",
    }
}

/// The name of the parameter with that number. Past the last one there is none.
pub(crate) fn param_name(x: &Expanded, param: u32) -> &[u8]
    ensures { result.now ≡ param_name x.now param }
{
    match x.params.as_slice().get(param as usize) {
        Some(info) => info.name.as_slice(),
        None => b"",
    }
}

/// Appends the message, its sender and its receiver.
pub(crate) fn push_message(
    text: &mut Bytes,
    x: &Expanded,
    message: &Message,
) -> Result<(), NoMemory>
    ensures { OnOk result (text.new ≡ text.old ++ message_phrase x.now message.now) }
{
    text.append(message.name.as_slice())?;
    text.append(verdicts::FROM)?;
    text.append(role_name(x, message.sender))?;
    text.append(verdicts::TO)?;
    text.append(role_name(x, message.receiver))
}

/// The message of the `n`-th event of the run, from 1.
pub(crate) fn nth_message<'a>(x: &'a Expanded, run: &[Event], n: usize) -> &'a Message
    requires fits { IsRun x.now run.now }
    requires some { 1 ≤ n }
    requires within { n ≤ length run.now }
    ensures { result.now ≡ nth_message x.now run.now n }
{
    x.message_at(run[n - 1].instance().message)
}
