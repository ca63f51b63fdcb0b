ghost use Rattle.std.specs.Prelude.{◌≡◌, ◌↔◌, IsTrue, length};
ghost use Rattle.bspl_types.specs.History.{IsRun};
ghost use Rattle.questions.specs.Answer.{CanBeSent, ComesToRest, HasArrived, IsAnsweredYes};
ghost use Rattle.questions.specs.Answer.{IsExhausted};
ghost use Rattle.questions.specs.inner.Moment.{IsAtRest};

use super::happening::{happened_before, has_happened};
use super::question::Question;
use bspl_types::{Event, Expanded, Key};
use enactment_model::{is_emitted_under, is_received_under};
use role_knowledge::enabled;

/// Whether the answer is yes at the end of the run, for the enactment of the key, by looking at
/// each of its moments. It takes no memory.
pub fn is_yes(x: &Expanded, run: &[Event], key: &Key, q: &Question) -> bool
    requires { IsRun x.now run.now }
    ensures { IsTrue result ↔ IsAnsweredYes x.now run.now key.now q.now }
{
    match q {
        Question::Happened(h) => has_happened(x, run, key, *h),
        Question::Before(one, other) => happened_before(x, run, key, *one, *other),
        Question::Can(m) => can_be_sent(x, run, key, *m),
        Question::Rest(excused) => comes_to_rest(x, run, key, excused.as_slice()),
        Question::Not(q) => !is_yes(x, run, key, q),
        Question::And(q, r) => is_yes(x, run, key, q) && is_yes(x, run, key, r),
        Question::Or(q, r) => is_yes(x, run, key, q) || is_yes(x, run, key, r),
    }
}

/// Whether the message can be sent now.
fn can_be_sent(x: &Expanded, run: &[Event], key: &Key, message: u32) -> bool
    requires { IsRun x.now run.now }
    ensures { IsTrue result ↔ CanBeSent x.now run.now key.now message }
{
    (message as usize) < x.messages.len() && enabled(x, run, message, key).is_ok()
}

/// Whether what was sent has arrived, and no message that was not sent can be, but for the excused.
fn comes_to_rest(x: &Expanded, run: &[Event], key: &Key, excused: &[u32]) -> bool
    requires { IsRun x.now run.now }
    ensures { IsTrue result ↔ ComesToRest x.now run.now key.now excused.now }
{
    for m in 0..x.messages.len() as u32 {
        if !is_at_rest(x, run, key, excused, m) {
            return false;
        }
    }
    true
}

/// Whether the message has arrived if it was sent, and is excused, was sent or cannot be sent.
fn is_at_rest(x: &Expanded, run: &[Event], key: &Key, excused: &[u32], message: u32) -> bool
    requires { IsRun x.now run.now }
    ensures { IsTrue result ↔ IsAtRest x.now run.now key.now excused.now message }
{
    has_arrived(run, key, message) && is_exhausted(x, run, key, excused, message)
}

/// Whether the message has arrived if it was sent.
fn has_arrived(run: &[Event], key: &Key, message: u32) -> bool
    ensures { IsTrue result ↔ HasArrived run.now key.now message }
{
    !is_emitted_under(run, key, message) || is_received_under(run, key, message)
}

/// Whether the message is excused, was sent, or cannot be sent.
fn is_exhausted(x: &Expanded, run: &[Event], key: &Key, excused: &[u32], message: u32) -> bool
    requires { IsRun x.now run.now }
    ensures { IsTrue result ↔ IsExhausted x.now run.now key.now excused.now message }
{
    excused.contains(&message)
        || is_emitted_under(run, key, message)
        || !can_be_sent(x, run, key, message)
}
