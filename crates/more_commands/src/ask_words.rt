ghost use Rattle.std.specs.Prelude.{◌≡◌};
ghost use Rattle.ask_commands.specs.AskCommand.{ask_task};
ghost use Rattle.more_commands.specs.AskWords.{ask_done, ask_refuted, ask_undecided, ask_words};

use super::wording::question_words;
use ask_commands::AskCommand;
use tool_input::Status;

/// What an answer of the command means that ends so, and what to ask next.
pub(crate) fn ask_words(command: &AskCommand, status: Status) -> &'static [u8]
    ensures { result.now ≡ ask_words (ask_task command.now) status }
{
    match status {
        Status::Done => ask_done(command),
        Status::Refuted => ask_refuted(command),
        Status::Undecided => ask_undecided(command),
        Status::Usage | Status::Refused => b"",
    }
}

/// After the status 0.
fn ask_done(command: &AskCommand) -> &'static [u8]
    ensures { result.now ≡ ask_done (ask_task command.now) }
{
    match command {
        AskCommand::Put { .. } => question_words::POSSIBLE,
        AskCommand::Misread(_) => b"",
        AskCommand::Check => question_words::ACCEPTED,
        AskCommand::Judge(_) => question_words::KEPT,
    }
}

/// After the status 1.
fn ask_refuted(command: &AskCommand) -> &'static [u8]
    ensures { result.now ≡ ask_refuted (ask_task command.now) }
{
    match command {
        AskCommand::Put { .. } => question_words::IMPOSSIBLE,
        AskCommand::Misread(_) => b"",
        AskCommand::Check => question_words::NOT_ACCEPTED,
        AskCommand::Judge(_) => question_words::BROKEN,
    }
}

/// After the status 2.
fn ask_undecided(command: &AskCommand) -> &'static [u8]
    ensures { result.now ≡ ask_undecided (ask_task command.now) }
{
    match command {
        AskCommand::Put { .. } => question_words::UNDECIDED,
        AskCommand::Misread(_) | AskCommand::Check => b"",
        AskCommand::Judge(_) => question_words::SOME_UNDECIDED,
    }
}
