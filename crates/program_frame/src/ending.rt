ghost use Rattle.std.specs.Prelude.{◌≡◌};
ghost use Rattle.program_frame.specs.Ending.{exit_number};

/// How a call of a program ended.
#[derive(Clone, Copy, Debug, PartialEq, Eq)]
pub enum Ending<S> {
    /// An answer was made and written whole. It has this status.
    Answered(S),
    /// Reading failed. Nothing was written.
    ReadFault,
    /// Writing failed. A prefix of the answer was written.
    WriteFault,
    /// Memory ran out. A prefix of the answer was written, perhaps nothing.
    NoMemory,
}

/// A status of answers, which has a number for the system.
pub trait ExitStatus: Copy {
    ghost use Rattle.std.specs.Prelude.{ℕ, ◌≡◌};

    // The exit status of a program whose answer has this status.
    ghost exit: { Self → ℕ };

    /// The exit status of a program whose answer has this status.
    fn number(self) -> u8
        ensures { result ≡ exit self };
}

impl<S: ExitStatus> Ending<S> {
    /// The exit status of the program.
    pub fn number(self) -> u8
        ensures { result ≡ exit_number S.exit self }
    {
        match self {
            Ending::Answered(status) => status.number(),
            Ending::ReadFault => 5,
            Ending::WriteFault => 6,
            Ending::NoMemory => 7,
        }
    }
}
