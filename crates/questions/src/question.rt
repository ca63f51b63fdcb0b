use list_base::Seq;

/// What may have happened in an enactment, with messages, roles and parameters by their indices in
/// the protocol.
#[derive(Clone, Copy, Debug)]
pub enum Happening {
    /// The message was sent.
    Sent(u32),
    /// It was received.
    Received(u32),
    /// The role has learned a value of the parameter.
    Knows { role: u32, param: u32 },
    /// Some role has.
    Bound(u32),
}

/// A question on one enactment, asked at the end of a run.
#[derive(Drop)]
pub enum Question {
    /// Has it happened?
    Happened(Happening),
    /// Had the first happened at a moment when the second had not?
    Before(Happening, Happening),
    /// Can the message be sent now?
    Can(u32),
    /// Has all that was sent arrived, and can no message be sent that was not, but for these?
    Rest(Seq<u32>),
    Not(Box<Question>),
    And(Box<Question>, Box<Question>),
    Or(Box<Question>, Box<Question>),
}
