ghost use Rattle.std.specs.Prelude.{◌≡◌};
ghost use Rattle.more_commands.specs.StatusWords.{after_done, after_refuted, status_words};
ghost use Rattle.more_commands.specs.StatusWords.{after_undecided};

use super::wording::answers;
use bspl_tool::Task;
use tool_input::Status;

/// What an answer to the task means that ends so. The words on verdicts of `verify` are others.
pub(crate) fn status_words(task: Task, status: Status) -> &'static [u8]
    ensures { result.now ≡ status_words task status }
{
    match status {
        Status::Done => after_done(task),
        Status::Refuted => after_refuted(task),
        Status::Undecided => after_undecided(task),
        Status::Usage | Status::Refused => b"",
    }
}

/// After the status 0.
fn after_done(task: Task) -> &'static [u8]
    ensures { result.now ≡ after_done task }
{
    match task {
        Task::Expand => answers::EXPANDED,
        Task::Verify { .. } => b"",
        Task::Check => answers::PROVED,
        Task::CheckDead => answers::PROVED_DEAD,
        Task::Replay => answers::LEGAL,
        Task::Audit => answers::CONSISTENT,
        Task::Serve => answers::REPLIED,
        Task::Dead { .. } => answers::NONE_DEAD,
        Task::Run { .. } | Task::Restart { .. } | Task::Generate { .. } => answers::PLAYED,
    }
}

/// After the status 1.
fn after_refuted(task: Task) -> &'static [u8]
    ensures { result.now ≡ after_refuted task }
{
    match task {
        Task::Expand | Task::Verify { .. } | Task::Serve => b"",
        Task::Check => answers::NOT_PROVED,
        Task::CheckDead => answers::NOT_PROVED_DEAD,
        Task::Replay => answers::ILLEGAL,
        Task::Audit => answers::INCONSISTENT,
        Task::Dead { .. } => answers::SOME_DEAD,
        Task::Run { .. } | Task::Restart { .. } | Task::Generate { .. } => answers::REFUTED,
    }
}

/// After the status 2.
fn after_undecided(task: Task) -> &'static [u8]
    ensures { result.now ≡ after_undecided task }
{
    match task {
        Task::Dead { .. } => answers::SOME_UNDECIDED,
        Task::Run { .. } | Task::Restart { .. } | Task::Generate { .. } => answers::NOT_FOUND,
        Task::Expand
        | Task::Verify { .. }
        | Task::Check
        | Task::CheckDead
        | Task::Replay
        | Task::Audit
        | Task::Serve => b"",
    }
}
