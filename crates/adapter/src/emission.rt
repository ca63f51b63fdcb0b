ghost use Rattle.std.specs.Prelude.{◌≡◌, ◌<◌, length, None, IfSome, MatchOption};
ghost use Rattle.local_store.specs.Emission.{IsEmission};
ghost use Rattle.reorder_net.specs.Mail.{IsPosted};
ghost use Rattle.adapter.specs.Kept.{IsFor, IsKept};
ghost use Rattle.adapter.specs.Next.{IsAtWork};
ghost use Rattle.adapter.specs.Posted.{envelope_of};
ghost use Rattle.adapter.specs.Steps.{IsNextEnvelope, after_emission, with_emission};
ghost use Rattle.adapter.specs.inner.NextStep.{IsNextStep, IsPlan, IsPossible, IsReady};

use super::desk::Desk;
use super::laws::is_orderly;
use super::next::{next_at, row_of};
use super::step::{Planned, Ready, Step};
use agent_scripts::Job;
use bspl_types::{Envelope, Stamped, equal_values_are_one};
use local_store::Store;
use reorder_net::copies;
use stamped_history::played_grows;

/// The agent of the desk's role emits the next message of its order at the workload number, if
/// there is one. The answer is the envelope to be posted, in as many copies as the plan gives: with
/// none it is lost. A kept desk has room for the emission, so this takes no memory.
pub fn desk_emit(desk: &mut Desk, job: &Job, n: u64) -> Option<Envelope>
    requires { IsAtWork job.now desk.old n }
    ensures kept { IsKept job.now desk.old.store.role desk.new }
    ensures plan { IsNextEnvelope job.now desk.old.store n result }
    ensures changed { desk.new ≡ after_emission desk.old result }
    ensures posted { IfSome result (λ e. 0 < e.copies → IsFor job.now e.to e) }
{
    let ready = next_ready(desk, job, n)?;
    let planned = plan(desk, job, n, &ready);
    emit_planned(desk, job, n, &planned);
    Some(planned.envelope)
}

/// The envelope that `desk_emit` would answer: there is one at most, as `next_envelopes_are_one`
/// states. Nothing changes. With copies it can go into its receiver's mailbox.
pub fn desk_plan(desk: &Desk, job: &Job, n: u64) -> Option<Envelope>
    requires { IsAtWork job.now desk.now n }
    ensures plan { IsNextEnvelope job.now desk.now.store n result }
    ensures posted { IfSome result (λ e. 0 < e.copies → IsFor job.now e.to e) }
    ensures mailed { IfSome result
        (λ e. 0 < e.copies → IsPosted job.now desk.now.store.role e.to e) }
{
    let ready = next_ready(desk, job, n)?;
    let planned = plan(desk, job, n, &ready);
    Some(planned.envelope)
}

/// The message that the agent can emit at the workload number, if there is one and the clock can go
/// on. Most turns end here, so what it answers is small.
pub(crate) fn next_ready(desk: &Desk, job: &Job, n: u64) -> Option<Ready>
    requires { IsAtWork job.now desk.now n }
    ensures { MatchOption result
        (IsNextEnvelope job.now desk.now.store n None)
        (IsReady job.now desk.now.store n) }
{
    if desk.store.clock() == u64::MAX {
        return None;
    }
    let row = row_of(desk, job, n);
    let message = next_at(desk, job, row, n)?;
    Some(Ready { message, row })
}

/// The emission of the message that is ready at the workload number.
pub(crate) fn plan(desk: &Desk, job: &Job, n: u64, ready: &Ready) -> Planned
    requires at_work { IsAtWork job.now desk.now n }
    requires ready { IsReady job.now desk.now.store n ready.now }
    ensures { IsPlan job.now desk.now.store n result }
{
    // law: the script fits its protocol
    is_orderly(job);
    let step = step_of(desk, job, n, ready);
    let message = plan_step(&desk.store, &step);
    Planned {
        row: step.row,
        envelope: envelope_of(job, desk.store.role(), message, n),
    }
}

/// The store emits what was planned.
pub(crate) fn emit_planned(desk: &mut Desk, job: &Job, n: u64, planned: &Planned)
    requires at_work { IsAtWork job.now desk.old n }
    requires plan { IsPlan job.now desk.old.store n planned.now }
    ensures kept { IsKept job.now desk.old.store.role desk.new }
    ensures changed { desk.new ≡ with_emission desk.old planned.now.envelope.message }
{
    // laws: of the script; a played event leaves the events played; equal keys are one key
    is_orderly(job);
    played_grows();
    equal_values_are_one();
    desk.store
        .append_planned(planned.row, &planned.envelope.message);
    // law: each store is consistent
    desk.store.is_consistent();
}

/// The agent's step of the message that is ready at the workload number.
fn step_of(desk: &Desk, job: &Job, n: u64, ready: &Ready) -> Step
    requires at_work { IsAtWork job.now desk.now n }
    requires ready { IsReady job.now desk.now.store n ready.now }
    ensures { IsNextStep job.now desk.now.store n result }
{
    let script = job.script();
    Step {
        message: ready.message,
        row: ready.row,
        key: script.key(n),
        outs: script.values(job.admitted(), ready.message, n),
    }
}

/// The envelope of the message that the role emitted at the workload number.
fn envelope_of(job: &Job, role: u32, message: Stamped, n: u64) -> Envelope
    requires { message.instance.message < length job.now.protocol.messages }
    ensures { result ≡ envelope_of job.now role n message }
{
    let messages = &job.admitted().expanded().messages;
    let number = message.instance.message;
    Envelope {
        to: messages.at(number as usize).receiver,
        from: role,
        message,
        copies: copies(job.plan(), number, n),
    }
}

/// What the store would emit at the step.
fn plan_step(store: &Store, step: &Step) -> Stamped
    requires { IsPossible store.now step.now }
    ensures { IsEmission store.now step.now.message step.now.key step.now.outs result }
{
    store.planned(step.row, step.message, &step.key, step.outs.as_slice())
}
