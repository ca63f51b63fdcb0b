ghost use Rattle.std.specs.Prelude.{◌≡◌, ◌++◌, OnOk};
ghost use Rattle.answer_words.specs.Sentences.{ending, heading, line_advice, middle};
ghost use Rattle.answer_words.specs.Sentences.{sentences, wrong};

use super::fault::Fault;
use super::wording::refusals::{self, Sentences};
use list_base::{Bytes, NoMemory};

/// Appends what is wrong, with the names of the refusal.
pub(crate) fn push_wrong(
    text: &mut Bytes,
    fault: Fault,
    one: &[u8],
    other: &[u8],
) -> Result<(), NoMemory>
    ensures { OnOk result (text.new ≡ text.old ++ wrong fault one.now other.now) }
{
    push_around(
        text,
        sentences(fault).0,
        one,
        middle(fault),
        other,
        ending(fault),
    )
}

/// Appends two names with what is around them.
pub(crate) fn push_around(
    text: &mut Bytes,
    before: &[u8],
    one: &[u8],
    between: &[u8],
    other: &[u8],
    after: &[u8],
) -> Result<(), NoMemory>
    ensures { OnOk result (text.new ≡
        text.old ++ before.now ++ one.now ++ between.now ++ other.now ++ after.now) }
{
    text.append(before)?;
    text.append(one)?;
    text.append(between)?;
    text.append(other)?;
    text.append(after)
}

/// What is wrong, all of it or up to the first name, and what to do, unless the place says it.
fn sentences(fault: Fault) -> Sentences
    ensures wrong { result.0.now ≡ (sentences fault).0 }
    ensures advice { result.1.now ≡ (sentences fault).1 }
{
    match fault {
        Fault::NoPart => refusals::NO_PART,
        Fault::TooLong => refusals::TOO_LONG,
        Fault::BadByte => refusals::BAD_BYTE,
        Fault::BadToken => refusals::BAD_TOKEN,
        Fault::NoProtocol => refusals::NO_PROTOCOL,
        Fault::NameTwice => refusals::NAME_TWICE,
        Fault::UnknownName => refusals::UNKNOWN_NAME,
        Fault::OtherArity => refusals::OTHER_ARITY,
        Fault::BadAdornment => refusals::BAD_ADORNMENT,
        Fault::Cycle => refusals::CYCLE,
        Fault::OverLimit => refusals::OVER_LIMIT,
        Fault::NoKey => refusals::NO_KEY,
        Fault::KeyMissing => refusals::KEY_MISSING,
        Fault::KeyElsewhere => refusals::KEY_ELSEWHERE,
        Fault::ToItself => refusals::TO_ITSELF,
        Fault::ParameterTwice => refusals::PARAMETER_TWICE,
        Fault::NoMessage => refusals::NO_MESSAGE,
        Fault::LogForm => refusals::LOG_FORM,
        Fault::LogNumber => refusals::LOG_NUMBER,
        Fault::RunForm => refusals::RUN_FORM,
        Fault::ScriptForm => refusals::SCRIPT_FORM,
        Fault::ScriptName => refusals::SCRIPT_NAME,
        Fault::HistoryForm => refusals::HISTORY_FORM,
        Fault::NoRole => refusals::NO_ROLE,
        Fault::NoRoleNamed => refusals::NO_ROLE_NAMED,
        Fault::NoParameter => refusals::NO_PARAMETER,
        Fault::QuestionByte => refusals::QUESTION_BYTE,
        Fault::QuestionLong => refusals::QUESTION_LONG,
        Fault::QuestionToken => refusals::QUESTION_TOKEN,
    }
}

/// What comes after the first name.
fn middle(fault: Fault) -> &'static [u8]
    ensures { result.now ≡ middle fault }
{
    match fault {
        Fault::NoPart => refusals::NO_PART_THERE,
        Fault::Cycle => refusals::BACK_TO_IT,
        Fault::KeyMissing => refusals::LACKS_KEY,
        Fault::ToItself => refusals::GOES_TO_ITSELF,
        Fault::ParameterTwice => refusals::HAS_PARAMETER,
        _ => b"",
    }
}

/// What comes after the second name.
fn ending(fault: Fault) -> &'static [u8]
    ensures { result.now ≡ ending fault }
{
    match fault {
        Fault::KeyMissing => refusals::AS_IN_OR_OUT,
        Fault::ParameterTwice => refusals::TWICE,
        _ => b"",
    }
}

/// What to do about a line of that number, from 1.
pub(crate) fn line_advice(fault: Fault, line: u64) -> &'static [u8]
    ensures { result.now ≡ line_advice fault line }
{
    if line == 1 {
        heading(fault)
    } else {
        sentences(fault).1
    }
}

/// How a part begins.
fn heading(fault: Fault) -> &'static [u8]
    ensures { result.now ≡ heading fault }
{
    match fault {
        Fault::LogForm => refusals::LOG_HEADING,
        Fault::RunForm => refusals::RUN_HEADING,
        Fault::HistoryForm => refusals::HISTORY_HEADING,
        _ => sentences(fault).1,
    }
}
