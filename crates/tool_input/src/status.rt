use program_frame::ExitStatus;

/// How an answer ends.
#[derive(Clone, Copy, Debug, PartialEq, Eq)]
pub enum Status {
    /// The protocol is safe and live; some run sends each message; the log is accepted; the run is
    /// legal, in conflict or not; one run explains the histories; the expansion or the formula is
    /// printed.
    Done,
    /// The protocol is not safe or not live; a message is dead; the log is rejected; the run is not
    /// legal; no run explains the histories.
    Refuted,
    /// A verdict or a message is undecided, and none refutes.
    Undecided,
    /// The arguments are invalid; a usage line is printed.
    Usage,
    /// The input is refused; the refusal is printed.
    Refused,
}

impl ExitStatus for Status {
    ghost use Rattle.tool_input.specs.Status.{exit_status};

    ghost exit = { exit_status };

    fn number(self) -> u8 {
        match self {
            Status::Done => 0,
            Status::Refuted => 1,
            Status::Undecided => 2,
            Status::Usage => 3,
            Status::Refused => 4,
        }
    }
}
