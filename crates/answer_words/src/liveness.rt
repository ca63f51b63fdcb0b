ghost use Rattle.std.specs.Prelude.{◌≡◌, ℕ, ◌<◌, ◌++◌, OnOk, length};
ghost use Rattle.bspl_types.specs.History.{IsRun};
ghost use Rattle.verdict.specs.RightLiveness.{IsRightLiveness};
ghost use Rattle.answer_words.specs.Liveness.{IsLivenessWords, IsNotLiveWords};
ghost use Rattle.answer_words.specs.Liveness.{not_live_advice};
ghost use Rattle.answer_words.specs.Producers.{AreBlocked};
ghost use Rattle.answer_words.specs.inner.Added.{Adds};

use super::laws::producers_are_blocked;
use super::messages::param_name;
use super::producers::producer_lines;
use super::safety::push_undecided;
use super::wording::{self, verdicts};
use bspl_types::{Event, Expanded};
use list_base::{Bytes, NoMemory};
use std::alloc::Global;
use verdict::Liveness;

/// Appends the words of the verdict on liveness.
pub(crate) fn push_liveness(
    alloc: Global,
    text: &mut Bytes,
    x: &Expanded,
    liveness: &Liveness,
) -> Result<(), NoMemory>
    requires some_key { 0 < length x.now.keys }
    requires right { (budget : ℕ) × IsRightLiveness x.now budget liveness.now }
    ensures { OnOk result (Adds (IsLivenessWords x.now liveness.now) text.old text.new) }
{
    // law: what produces the parameter of a right verdict is blocked after its run
    producers_are_blocked();
    match liveness {
        Liveness::Live(_) => text.append(verdicts::LIVE),
        Liveness::NotLive { run, param } => push_not_live(alloc, text, x, run.as_slice(), *param),
        Liveness::Undecided(log) => push_undecided(text, verdicts::LIVENESS, log.steps.len()),
    }
}

/// Appends the parameter that stays unknown, what could produce it, and what to do.
fn push_not_live(
    alloc: Global,
    text: &mut Bytes,
    x: &Expanded,
    run: &[Event],
    param: u32,
) -> Result<(), NoMemory>
    requires some_key { 0 < length x.now.keys }
    requires fits { IsRun x.now run.now }
    requires blocked { AreBlocked x.now run.now param }
    ensures { OnOk result (Adds (IsNotLiveWords x.now run.now param) text.old text.new) }
{
    let lines = producer_lines(alloc, x, run, param)?;
    let name = param_name(x, param);
    text.append(verdicts::NOT_LIVE)?;
    text.append(name)?;
    text.append(wording::FULL_STOP)?;
    text.append(lines.as_slice())?;
    push_advice(text, name, lines.as_slice())
}

/// Appends what to do, after the lines of the messages that produce the parameter.
fn push_advice(text: &mut Bytes, name: &[u8], lines: &[u8]) -> Result<(), NoMemory>
    ensures { OnOk result (text.new ≡ text.old ++ not_live_advice name.now lines.now) }
{
    match lines {
        [] => {
            text.append(verdicts::NO_PRODUCER)?;
            text.append(name)?;
            text.append(verdicts::OTHERS_SUPPLY)
        }
        [_, ..] => {
            text.append(verdicts::SOME_PRODUCER)?;
            text.append(name)?;
            text.append(wording::FULL_STOP)
        }
    }
}
