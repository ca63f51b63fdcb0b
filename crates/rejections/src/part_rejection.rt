ghost use Rattle.std.specs.Prelude.{◌≡◌};
ghost use Rattle.rejections.specs.PartRejection.{histories_rejection, log_rejection};
ghost use Rattle.rejections.specs.PartRejection.{run_rejection, script_rejection};

use agent_scripts::ScriptRefusal;
use history_audit::HistoryRefusal;
use refutation_log::LogRefusal;
use run_text::RunRefusal;
use tool_input::{Code, Field, Rejection};

/// The rejection of a log's text, unless memory ran out.
pub fn log_rejection(refusal: LogRefusal) -> Option<Rejection>
    ensures { result ≡ log_rejection refusal }
{
    match refusal {
        LogRefusal::Form { line } => Some(Rejection::with_one(Code::L(1), Field::Number(line))),
        LogRefusal::Number { line } => Some(Rejection::with_one(Code::L(2), Field::Number(line))),
        LogRefusal::NoMemory => None,
    }
}

/// The rejection of a run's text, unless memory ran out.
pub fn run_rejection(refusal: RunRefusal) -> Option<Rejection>
    ensures { result ≡ run_rejection refusal }
{
    match refusal {
        RunRefusal::Form { line } => Some(Rejection::with_one(Code::W(1), Field::Number(line))),
        RunRefusal::NoMemory => None,
    }
}

/// The rejection of the agents' text, unless memory ran out.
pub fn script_rejection(refusal: ScriptRefusal) -> Option<Rejection>
    ensures { result ≡ script_rejection refusal }
{
    match refusal {
        ScriptRefusal::Form { line } => {
            Some(Rejection::with_one(Code::S(1), Field::Number(line)))
        }
        ScriptRefusal::Unknown { line } => {
            Some(Rejection::with_one(Code::S(2), Field::Number(line)))
        }
        ScriptRefusal::NoMemory => None,
    }
}

/// The rejection of the text of histories, unless memory ran out.
pub fn histories_rejection(refusal: HistoryRefusal) -> Option<Rejection>
    ensures { result ≡ histories_rejection refusal }
{
    match refusal {
        HistoryRefusal::Form { line } => {
            Some(Rejection::with_one(Code::H(1), Field::Number(line)))
        }
        HistoryRefusal::NoMemory => None,
    }
}
