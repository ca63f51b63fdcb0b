ghost use Rattle.std.specs.Prelude.{◌≡◌, ℕ, ◌≤◌, ◌++◌, OnOk, length};
ghost use Rattle.bspl_types.specs.History.{IsRun};
ghost use Rattle.verdict.specs.Right.{IsRight, IsUnsafeVerdict};
ghost use Rattle.answer_words.specs.Safety.{event_words, safety_words, second_words};
ghost use Rattle.answer_words.specs.Safety.{undecided_words, unsafe_words};

use super::messages::{nth_message, param_name, push_message, role_name};
use super::wording::{self, verdicts};
use bspl_types::{Event, Expanded};
use list_base::{Bytes, NoMemory};
use text_lines::push_decimal;
use verdict::Safety;

/// Appends the words of the verdict on safety.
pub(crate) fn push_safety(text: &mut Bytes, x: &Expanded, safety: &Safety) -> Result<(), NoMemory>
    requires { (budget : ℕ) × IsRight x.now budget safety.now }
    ensures { OnOk result (text.new ≡ text.old ++ safety_words x.now safety.now) }
{
    match safety {
        Safety::Safe(_) => text.append(verdicts::SAFE),
        Safety::Unsafe {
            run,
            param,
            first,
            second,
        } => { push_unsafe(text, x, run.as_slice(), *param, *first, *second) }
        Safety::Undecided(log) => push_undecided(text, verdicts::SAFETY, log.steps.len()),
    }
}

/// Appends the two messages that clash over the parameter.
fn push_unsafe(
    text: &mut Bytes,
    x: &Expanded,
    run: &[Event],
    param: u32,
    first: usize,
    second: usize,
) -> Result<(), NoMemory>
    requires { IsUnsafeVerdict x.now run.now param first second }
    ensures { OnOk result (text.new ≡
        text.old ++ unsafe_words x.now run.now param first second) }
{
    text.append(verdicts::NOT_SAFE)?;
    text.append(param_name(x, param))?;
    text.append(wording::FULL_STOP)?;
    push_event(text, x, run, first)?;
    text.append(wording::FULL_STOP)?;
    push_second(text, x, run, param, second)?;
    text.append(verdicts::ONE_ROLE_DECIDES)?;
    text.append(param_name(x, param))?;
    text.append(verdicts::OTHERS_ASK)
}

/// Appends the second producer.
fn push_second(
    text: &mut Bytes,
    x: &Expanded,
    run: &[Event],
    param: u32,
    n: usize,
) -> Result<(), NoMemory>
    requires fits { IsRun x.now run.now }
    requires some { 1 ≤ n }
    requires within { n ≤ length run.now }
    ensures { OnOk result (text.new ≡ text.old ++ second_words x.now run.now param n) }
{
    push_event(text, x, run, n)?;
    text.append(verdicts::AND_SENDER)?;
    text.append(role_name(x, nth_message(x, run, n).sender))?;
    text.append(verdicts::DOES_NOT_KNOW)?;
    text.append(param_name(x, param))?;
    text.append(verdicts::BEFORE_IT)
}

/// Appends the `n`-th event of the run, from 1, and what it sends.
fn push_event(text: &mut Bytes, x: &Expanded, run: &[Event], n: usize) -> Result<(), NoMemory>
    requires fits { IsRun x.now run.now }
    requires some { 1 ≤ n }
    requires within { n ≤ length run.now }
    ensures { OnOk result (text.new ≡ text.old ++ event_words x.now run.now n) }
{
    text.append(verdicts::EVENT)?;
    push_decimal(text, n as u64)?;
    text.append(verdicts::EVENT_IS)?;
    push_message(text, x, nth_message(x, run, n))
}

/// Appends that the search did not decide the property, and how many conflicts it met.
pub(crate) fn push_undecided(
    text: &mut Bytes,
    property: &[u8],
    conflicts: usize,
) -> Result<(), NoMemory>
    ensures { OnOk result (text.new ≡ text.old ++ undecided_words property.now conflicts) }
{
    text.append(wording::WHAT_IS_WRONG)?;
    text.append(property)?;
    text.append(verdicts::IS_UNDECIDED)?;
    push_decimal(text, conflicts as u64)?;
    text.append(wording::FULL_STOP)?;
    text.append(verdicts::LARGER_NUMBER)
}
