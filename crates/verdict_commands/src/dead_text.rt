ghost use Rattle.std.specs.Prelude.{◌≡◌, ◌<◌, ◌++◌, ◌||◌, false, length, IfOk, OnOk};
ghost use Rattle.std.specs.Fmt.{decimal};
ghost use Rattle.bspl_types.specs.Expansion.{message_name};
ghost use Rattle.enactability.specs.Answer.{HasEnactLogInRange};
ghost use Rattle.report.specs.VerdictText.{protocol_line};
ghost use Rattle.tool_input.specs.Lines.{line};
ghost use Rattle.verdict_commands.specs.DeadAnswer.{is_dead, is_undecided, message_evidence, enact_line};
ghost use Rattle.verdict_commands.specs.DeadAnswer.{message_text, status_of};
ghost use Rattle.verdict_commands.specs.EnactedRun.{EnactedRunFits};

use super::wording::{DEAD, ENACTED, MESSAGE, UNDECIDED};
use bspl_types::{Admitted, Bytes, Expanded, NoMemory};
use enactability::{Enact, write_dead};
use run_text::write_run;
use std::alloc::Global;
use tool_input::Status;

/// What is known and written of the messages that are answered so far.
#[derive(Drop)]
pub struct Answered {
    pub text: Bytes,
    pub dead: bool,
    pub undecided: bool,
}

impl Answered {
    ghost use Rattle.std.specs.Prelude.{◌≡◌, ◌<◌, ◌++◌, ◌||◌, false, length, IfOk, OnOk};
    ghost use Rattle.enactability.specs.Answer.{HasEnactLogInRange};
    ghost use Rattle.report.specs.VerdictText.{protocol_line};
    ghost use Rattle.verdict_commands.specs.DeadAnswer.{is_dead, is_undecided, message_text, status_of};
    ghost use Rattle.verdict_commands.specs.EnactedRun.{EnactedRunFits};

    /// No message is answered; the line of the protocol is written.
    pub fn none(alloc: Global, x: &Expanded) -> Result<Answered, NoMemory>
        ensures text { IfOk result (λ so_far. so_far.text ≡ protocol_line x.now) }
        ensures dead { IfOk result (λ so_far. so_far.dead ≡ false) }
        ensures undecided { IfOk result (λ so_far. so_far.undecided ≡ false) }
    {
        let mut text = Bytes::from_slice(alloc, b"protocol ")?;
        text.append(x.name.as_slice())?;
        text.push(b'\n')?;
        Ok(Answered {
            text,
            dead: false,
            undecided: false,
        })
    }

    /// Takes the answer on one message more.
    pub fn take(
        &mut self,
        alloc: Global,
        a: &Admitted,
        brief: bool,
        message: u32,
        answer: &Enact,
    ) -> Result<(), NoMemory>
        requires known { message < length a.now.messages }
        requires fits { EnactedRunFits a.now answer.now }
        requires numbers { HasEnactLogInRange answer.now }
        ensures text { OnOk result
            (self.new.text ≡ self.old.text ++ message_text a.now brief message answer.now) }
        ensures dead { OnOk result (self.new.dead ≡ (self.old.dead || is_dead answer.now)) }
        ensures undecided { OnOk result
            (self.new.undecided ≡ (self.old.undecided || is_undecided answer.now)) }
    {
        self.dead = self.dead || is_dead(answer);
        self.undecided = self.undecided || is_undecided(answer);
        push_answer(alloc, &mut self.text, a, brief, message, answer)
    }

    /// The status of the answers.
    pub fn status(&self) -> Status
        ensures { result ≡ status_of self.now.dead self.now.undecided }
    {
        if self.dead {
            Status::Refuted
        } else if self.undecided {
            Status::Undecided
        } else {
            Status::Done
        }
    }
}

/// Whether no legal run emits the message.
fn is_dead(answer: &Enact) -> bool
    ensures { result ≡ is_dead answer.now }
{
    matches!(answer, Enact::Dead(_))
}

/// Whether the search came to its budget.
fn is_undecided(answer: &Enact) -> bool
    ensures { result ≡ is_undecided answer.now }
{
    matches!(answer, Enact::Undecided(_))
}

/// Appends the line of the answer, and its evidence unless the text is brief.
fn push_answer(
    alloc: Global,
    text: &mut Bytes,
    a: &Admitted,
    brief: bool,
    message: u32,
    answer: &Enact,
) -> Result<(), NoMemory>
    requires known { message < length a.now.messages }
    requires fits { EnactedRunFits a.now answer.now }
    requires numbers { HasEnactLogInRange answer.now }
    ensures { OnOk result (text.new ≡ text.old ++ message_text a.now brief message answer.now) }
{
    let schema = a.expanded().message_at(message);
    push_line(alloc, text, schema.name.as_slice(), answer)?;
    if brief {
        return Ok(());
    }
    let evidence = evidence_text(alloc, a, message, answer)?;
    text.append(evidence.as_slice())
}

/// Appends the line of the answer on the message of that name.
fn push_line(alloc: Global, text: &mut Bytes, name: &[u8], answer: &Enact) -> Result<(), NoMemory>
    ensures { OnOk result (text.new ≡ text.old ++ line (enact_line name.now answer.now)) }
{
    text.append(MESSAGE)?;
    text.append(name)?;
    match answer {
        Enact::Enacted(_) => push_end(text, ENACTED),
        Enact::Dead(_) => push_end(text, DEAD),
        Enact::Undecided(log) => push_steps(alloc, text, log.steps.len()),
    }
}

/// Appends the words with which a line ends.
fn push_end(text: &mut Bytes, words: &[u8]) -> Result<(), NoMemory>
    ensures { OnOk result (text.new ≡ text.old ++ line words.now) }
{
    text.append(words)?;
    text.push(b'\n')
}

/// Appends that the search came to its budget, with so many steps.
fn push_steps(alloc: Global, text: &mut Bytes, steps: usize) -> Result<(), NoMemory>
    ensures { OnOk result (text.new ≡ text.old ++ line (UNDECIDED.now ++ decimal steps)) }
{
    text.append(UNDECIDED)?;
    text.append(steps.to_string(alloc)?.as_bytes())?;
    text.push(b'\n')
}

/// The text of the run, or of the log.
fn evidence_text(
    alloc: Global,
    a: &Admitted,
    message: u32,
    answer: &Enact,
) -> Result<Bytes, NoMemory>
    requires known { message < length a.now.messages }
    requires fits { EnactedRunFits a.now answer.now }
    requires numbers { HasEnactLogInRange answer.now }
    ensures { IfOk result (λ text. text ≡ message_evidence a.now message answer.now) }
{
    match answer {
        Enact::Enacted(run) => write_run(alloc, a, run.as_slice()),
        Enact::Dead(log) | Enact::Undecided(log) => write_dead(alloc, a, message, log),
    }
}
