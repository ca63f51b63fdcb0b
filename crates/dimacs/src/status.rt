use program_frame::ExitStatus;

/// How an answer ends.
#[derive(Clone, Copy, Debug, PartialEq, Eq)]
pub enum Status {
    Satisfiable,
    Unsatisfiable,
    Unknown,
    /// The arguments are invalid.
    Usage,
    /// The input was refused, and the refusal written.
    Refused,
}

impl ExitStatus for Status {
    ghost use Rattle.dimacs.specs.Status.{solver_exit_number};

    ghost exit = { solver_exit_number };

    fn number(self) -> u8 {
        match self {
            Status::Satisfiable => 10,
            Status::Unsatisfiable => 20,
            Status::Unknown => 0,
            Status::Usage => 3,
            Status::Refused => 4,
        }
    }
}
