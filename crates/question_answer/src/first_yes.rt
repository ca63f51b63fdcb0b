ghost use Rattle.std.specs.Prelude.{MatchOption};
ghost use Rattle.bspl_types.specs.History.{IsRun};
ghost use Rattle.questions.specs.Answer.{IsAnsweredYes};
ghost use Rattle.question_answer.specs.inner.Moment.{IsFirstMoment};

use bspl_types::{Event, Expanded, Key};
use questions::{Question, is_yes};

/// How many events there are until the answer is yes for the first time, if it is yes at the end of
/// the run.
pub(crate) fn first_yes(x: &Expanded, run: &[Event], key: &Key, q: &Question) -> Option<usize>
    requires { IsRun x.now run.now }
    ensures { MatchOption result
        (¬ IsAnsweredYes x.now run.now key.now q.now)
        (IsFirstMoment x.now run.now key.now q.now) }
{
    for moment in 0..run.len() + 1 {
        if is_yes(x, &run[..moment], key, q) {
            return Some(moment);
        }
    }
    None
}
