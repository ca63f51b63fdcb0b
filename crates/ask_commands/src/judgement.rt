ghost use Rattle.std.specs.Prelude.{◌≡◌, ◌++◌, OnOk};
ghost use Rattle.ask_commands.specs.Judgement.{is_broken, is_unjudged, judgement_line, sense_word};
ghost use Rattle.ask_commands.specs.inner.Text.{judgement_front};

use super::answer_text::push_undecided;
use super::wording::{BROKEN, KEPT, NEVER, SOME};
use list_base::{Bytes, NoMemory};
use protocol_rules::Sense;
use question_answer::Answer;

/// Whether the answer to its question breaks a rule of that sense.
pub fn is_broken(sense: Sense, answer: &Answer) -> bool
    ensures { result ≡ is_broken sense answer.now }
{
    match answer {
        Answer::Possible(_) => sense == Sense::Never,
        Answer::Impossible(_) => sense == Sense::Some,
        Answer::Undecided(_) => false,
    }
}

/// Whether the answer leaves it open.
pub(crate) fn is_unjudged(answer: &Answer) -> bool
    ensures { result ≡ is_unjudged answer.now }
{
    matches!(answer, Answer::Undecided(_))
}

/// Appends the line of the judgement on a rule whose question is spelled so.
pub(crate) fn push_judgement(
    text: &mut Bytes,
    sense: Sense,
    spelling: &[u8],
    answer: &Answer,
) -> Result<(), NoMemory>
    ensures { OnOk result
        (text.new ≡ text.old ++ judgement_line sense spelling.now answer.now) }
{
    push_front(text, sense, answer)?;
    text.push(b' ')?;
    text.append(sense_word(sense))?;
    text.push(b' ')?;
    text.append(spelling)?;
    text.push(b'\n')
}

/// Appends the words of the judgement.
fn push_front(text: &mut Bytes, sense: Sense, answer: &Answer) -> Result<(), NoMemory>
    ensures { OnOk result (text.new ≡ text.old ++ judgement_front sense answer.now) }
{
    match answer {
        Answer::Undecided(log) => push_undecided(text, log),
        _ => text.append(if is_broken(sense, answer) {
            BROKEN
        } else {
            KEPT
        }),
    }
}

/// The word of the sense.
pub fn sense_word(sense: Sense) -> &'static [u8]
    ensures { result.now ≡ sense_word sense }
{
    match sense {
        Sense::Never => NEVER,
        Sense::Some => SOME,
    }
}
