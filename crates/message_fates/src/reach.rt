ghost use Rattle.std.specs.Prelude.{◌<◌, ◌↔◌, ◌≡◌, length, IsTrue};
ghost use Rattle.message_fates.specs.inner.Reach.{IsClosed, IsReached, IsTold, Lacks, Tells};

use super::param_sets::ParamSets;
use bspl_types::{Adornment, Expanded, MESSAGE_LIMIT, Message};

/// Marks the messages that would be sent if a message could be sent as soon as its sender was told
/// each `in` parameter, whatever else it knows.
pub(crate) fn reach(x: &Expanded) -> [bool; MESSAGE_LIMIT] {
    let mut reach = [false; MESSAGE_LIMIT];
    let mut known = ParamSets::new();
    for _ in x.messages.as_slice() {
        let mut more = false;
        for (message, reached) in x.messages.as_slice().iter().zip(&mut reach) {
            if !*reached && known.have_ins(message) {
                *reached = true;
                known.tell(message);
                more = true;
            }
        }
        if !more {
            return reach;
        }
    }
    reach
}

/// Whether each message whose sender learns each `in` parameter from reached messages is reached.
pub(crate) fn is_closed(x: &Expanded, reach: &[bool]) -> bool
    ensures { IsTrue result → IsClosed x.now reach.now }
{
    let mut messages = x.messages.as_slice().iter().enumerate();
    messages.all(|(index, message)| is_reached(reach, index) || lacks_one(x, reach, message))
}

/// Whether the message has an `in` parameter that no reached message tells its sender.
fn lacks_one(x: &Expanded, reach: &[bool], message: &Message) -> bool
    ensures { IsTrue result → Lacks x.now reach.now message.now }
{
    let mut carried = message.carried.as_slice().iter();
    carried.any(|c| c.adornment == Adornment::In && !is_told(x, reach, message.sender, c.param))
}

/// Whether a reached message tells the role the parameter.
fn is_told(x: &Expanded, reach: &[bool], role: u32, param: u32) -> bool
    ensures { IsTrue result ↔ IsTold x.now reach.now role param }
{
    let mut messages = x.messages.as_slice().iter().enumerate();
    messages.any(|(index, message)| is_reached(reach, index) && tells(message, role, param))
}

/// Whether the message's number is reached.
pub(crate) fn is_reached(reach: &[bool], message: usize) -> bool
    ensures { IsTrue result ↔ IsReached reach.now message }
{
    reach.get(message) == Some(&true)
}

/// Whether the message binds the parameter, and the role sends or receives it.
fn tells(message: &Message, role: u32, param: u32) -> bool
    ensures { IsTrue result ↔ Tells message.now role param }
{
    let is_party = message.sender == role || message.receiver == role;
    is_party
        && message
            .carried
            .as_slice()
            .iter()
            .any(|c| c.param == param && c.adornment.has_value())
}
