use bspl_types::Stamped;
use local_store::Receipt;
use role_knowledge::Block;

/// Why a line changes nothing and gets no answer, in the order in which the reasons are judged.
#[derive(Clone, Copy, Debug, PartialEq, Eq)]
pub enum Refusal {
    /// It is no line of the wire: not JSON, other members or kinds, too long, or without its LF.
    F1,
    /// It means nothing for this role of this protocol.
    F2,
    /// There is no room for a further event or key.
    F3,
    /// The clock, or the stamp that came, is at its last value.
    F4,
}

/// The reply to a line.
#[derive(Clone, Copy, Debug)]
pub enum Reply {
    /// The line is refused.
    Refused(Refusal),
    /// How the message was received.
    Received(Receipt),
    /// The message was emitted.
    Sent(Stamped),
    /// The message cannot be emitted now.
    Blocked(Block),
}
