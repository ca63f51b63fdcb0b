ghost use Rattle.std.specs.Prelude.{◌≡◌, ◌++◌, ◌∷◌, IfOk, OnOk};
ghost use Rattle.question_answer.specs.Answer.{HasAnswerLogInRange, HasFittingEvents};
ghost use Rattle.refutation_log.specs.LogText.{LogInRange};
ghost use Rattle.ask_commands.specs.AskAnswer.{ask_text, asked_protocol_line, possibility_evidence};
ghost use Rattle.ask_commands.specs.AskAnswer.{possibility_line, question_log_part};
ghost use Rattle.ask_commands.specs.inner.Text.{possibility_front, undecided_front};

use super::wording::{IMPOSSIBLE, POSSIBLE, UNDECIDED};
use bspl_types::{Admitted, Expanded};
use list_base::{Bytes, NoMemory};
use question_answer::{Answer, write_question_log};
use refutation_log::Log;
use run_text::write_run;
use std::alloc::Global;
use text_lines::push_decimal;

/// The text of the answer to a question that is spelled so. A brief one has no log; a run is always
/// there.
pub(crate) fn ask_text(
    alloc: Global,
    a: &Admitted,
    spelling: &[u8],
    brief: bool,
    answer: &Answer,
) -> Result<Bytes, NoMemory>
    requires fits { HasFittingEvents a.now answer.now }
    requires numbers { HasAnswerLogInRange answer.now }
    ensures { IfOk result (λ text. text ≡ ask_text a.now spelling.now brief answer.now) }
{
    let mut text = protocol_line(alloc, a.expanded())?;
    push_line(&mut text, spelling, answer)?;
    push_evidence(alloc, &mut text, a, spelling, brief, answer)?;
    Ok(text)
}

/// The line with the name of the protocol.
pub(crate) fn protocol_line(alloc: Global, x: &Expanded) -> Result<Bytes, NoMemory>
    ensures { IfOk result (λ text. text ≡ asked_protocol_line x.now) }
{
    let mut text = Bytes::from_slice(alloc, b"protocol ")?;
    text.append(x.name.as_slice())?;
    text.push(b'\n')?;
    Ok(text)
}

/// Appends the line of the answer.
fn push_line(text: &mut Bytes, spelling: &[u8], answer: &Answer) -> Result<(), NoMemory>
    ensures { OnOk result (text.new ≡ text.old ++ possibility_line spelling.now answer.now) }
{
    push_front(text, answer)?;
    text.push(b' ')?;
    text.append(spelling)?;
    text.push(b'\n')
}

/// Appends the words of the answer.
fn push_front(text: &mut Bytes, answer: &Answer) -> Result<(), NoMemory>
    ensures { OnOk result (text.new ≡ text.old ++ possibility_front answer.now) }
{
    match answer {
        Answer::Possible(_) => text.append(POSSIBLE),
        Answer::Impossible(_) => text.append(IMPOSSIBLE),
        Answer::Undecided(log) => push_undecided(text, log),
    }
}

/// Appends the word of a search that came to its budget, and how many steps its log has.
pub(crate) fn push_undecided(text: &mut Bytes, log: &Log) -> Result<(), NoMemory>
    ensures { OnOk result (text.new ≡ text.old ++ undecided_front log.now) }
{
    text.append(UNDECIDED)?;
    text.push(b' ')?;
    push_decimal(text, log.steps.len() as u64)
}

/// Appends the evidence of the answer.
pub(crate) fn push_evidence(
    alloc: Global,
    text: &mut Bytes,
    a: &Admitted,
    spelling: &[u8],
    brief: bool,
    answer: &Answer,
) -> Result<(), NoMemory>
    requires fits { HasFittingEvents a.now answer.now }
    requires numbers { HasAnswerLogInRange answer.now }
    ensures { OnOk result
        (text.new ≡ text.old ++ possibility_evidence a.now spelling.now brief answer.now) }
{
    match answer {
        Answer::Possible(run) => {
            let events = write_run(alloc, a, run.as_slice())?;
            text.append(events.as_slice())
        }
        Answer::Impossible(log) => push_log(alloc, text, spelling, brief, log),
        Answer::Undecided(log) => push_log(alloc, text, spelling, brief, log),
    }
}

/// Appends the text of the log, unless the text is brief.
fn push_log(
    alloc: Global,
    text: &mut Bytes,
    spelling: &[u8],
    brief: bool,
    log: &Log,
) -> Result<(), NoMemory>
    requires { LogInRange log.now }
    ensures { OnOk result (text.new ≡ text.old ++ question_log_part spelling.now brief log.now) }
{
    if brief {
        return Ok(());
    }
    let steps = write_question_log(alloc, spelling, log)?;
    text.append(steps.as_slice())
}
