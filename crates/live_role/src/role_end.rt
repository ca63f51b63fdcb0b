ghost use Rattle.std.specs.Prelude.{◌≡◌};
ghost use Rattle.live_role.specs.End.{role_exit};

use super::journal_choice::RoleJournal;
use program_frame::Ending;
use tool_input::Status;

/// How a call ended, and the journal of the role. There is none if the role was not served.
#[derive(Drop)]
pub struct RoleEnd<J> {
    pub ending: RoleEnding,
    pub journal: RoleJournal<J>,
}

/// How a call of the program ended.
#[derive(Clone, Copy, Debug, PartialEq, Eq)]
pub enum RoleEnding {
    /// As a call of each program may end.
    Ended(Ending<Status>),
    /// Keeping failed. Each line with a reply is kept if it made an event; no more was written.
    NotKept,
}

impl RoleEnding {
    /// The exit status of the program.
    pub fn number(self) -> u8
        ensures { result ≡ role_exit self }
    {
        match self {
            RoleEnding::Ended(ending) => ending.number(),
            RoleEnding::NotKept => 8,
        }
    }
}
