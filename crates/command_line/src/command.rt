ghost use Rattle.std.specs.Prelude.{◌≡◌, ◌≢◌, MatchOption};
ghost use Rattle.command_line.specs.declared.command.Command.{Command as Kind};
ghost use Rattle.command_line.specs.Command.{command_word, takes_brief, takes_conflicts, takes_size, takes_threads};

/// What the program does.
#[derive(Clone, Copy, Debug, PartialEq, Eq)]
pub enum Command {
    Verify,
    Check,
    Replay,
    Expand,
    Run,
    Restart,
    Generate,
    Dead,
    CheckDead,
    Serve,
    Audit,
}

/// What belongs to a command.
#[derive(Clone, Copy, Debug)]
pub struct CommandRow {
    /// `--brief`.
    pub brief: bool,
    /// `--conflicts`.
    pub conflicts: bool,
    /// `--threads`.
    pub threads: bool,
    /// A number in place of a name.
    pub sized: bool,
}

/// No option, and a name.
const PLAIN: CommandRow = CommandRow {
    brief: false,
    conflicts: false,
    threads: false,
    sized: false,
};

impl Command {
    /// What belongs to it.
    pub fn row(self) -> CommandRow
        ensures brief { result.brief ≡ takes_brief self }
        ensures conflicts { result.conflicts ≡ takes_conflicts self }
        ensures threads { result.threads ≡ takes_threads self }
        ensures sized { result.sized ≡ takes_size self }
    {
        match self {
            Command::Verify | Command::Restart | Command::Dead => CommandRow {
                brief: true,
                conflicts: true,
                ..PLAIN
            },
            Command::Check
            | Command::Replay
            | Command::Expand
            | Command::CheckDead
            | Command::Serve
            | Command::Audit => PLAIN,
            Command::Run => CommandRow {
                brief: true,
                conflicts: true,
                threads: true,
                ..PLAIN
            },
            Command::Generate => CommandRow {
                conflicts: true,
                threads: true,
                sized: true,
                ..PLAIN
            },
        }
    }
}

/// The command that the argument names.
pub fn command_of(word: &[u8]) -> Option<Command>
    ensures { MatchOption result ((command : Kind) → command_word command ≢ word.now)
        (λ command. command_word command ≡ word.now) }
{
    match word {
        b"verify" => Some(Command::Verify),
        b"check" => Some(Command::Check),
        b"replay" => Some(Command::Replay),
        b"expand" => Some(Command::Expand),
        b"run" => Some(Command::Run),
        b"restart" => Some(Command::Restart),
        b"generate" => Some(Command::Generate),
        b"dead" => Some(Command::Dead),
        b"check-dead" => Some(Command::CheckDead),
        b"serve" => Some(Command::Serve),
        b"audit" => Some(Command::Audit),
        _ => None,
    }
}
