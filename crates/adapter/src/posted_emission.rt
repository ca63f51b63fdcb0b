ghost use Rattle.std.specs.Prelude.{◌≡◌, ℕ, ◌<◌, ◌++◌, List, Some, length, IfOk, OnErr};
ghost use Rattle.std.specs.Prelude.{OnOk};
ghost use Rattle.bspl_types.specs.declared.envelope.Envelope.{Envelope};
ghost use Rattle.reorder_net.specs.Mail.{IsPosted};
ghost use Rattle.reorder_net.specs.Passes.{ArePasses};
ghost use Rattle.adapter.specs.Posted.{arriving};
ghost use Rattle.adapter.specs.State.{IsStateKept};
ghost use Rattle.adapter.specs.StateSteps.{EmitsNext, IsStateAtWork};
ghost use Rattle.adapter.specs.inner.NextStep.{IsPlan};

use super::emission::{emit_planned, next_ready, plan};
use super::laws::is_orderly;
use super::role_state::RoleState;
use super::step::Planned;
use agent_scripts::{Job, Scene};
use bspl_types::{Envelope, equal_values_are_one};
use list_base::NoMemory;
use reorder_net::{Post, RolePasses, Spares};
use std::sync::Wait;

/// The role's agent emits as `desk_emit` does. The envelope goes into its receiver's mailbox
/// before the store changes, unless the plan loses it. If the mailbox cannot take it, the answer is
/// out of memory, and the state stays as it was.
pub fn step_emit<N: Scene, W: Wait>(
    rt: &W,
    state: &mut RoleState,
    job: &Job,
    n: u64,
    post: &Post<N>,
) -> Result<Option<Envelope>, NoMemory>
    requires scene { N.job ≡ job.now }
    requires at_work { IsStateAtWork job.now post.now state.old n }
    ensures kept { IsStateKept job.now state.old.desk.store.role post.now state.new }
    ensures ok { IfOk result (λ e. EmitsNext job.now n state.old e state.new) }
    ensures err { OnErr result (state.new ≡ state.old) }
{
    let Some(ready) = next_ready(&state.desk, job, n) else {
        return Ok(None);
    };
    let planned = plan(&state.desk, job, n, &ready);
    emit_posted(rt, state, job, n, post, &planned)?;
    Ok(Some(planned.envelope))
}

/// The desk emits what was planned, once its envelope is posted.
fn emit_posted<N: Scene, W: Wait>(
    rt: &W,
    state: &mut RoleState,
    job: &Job,
    n: u64,
    post: &Post<N>,
    planned: &Planned,
) -> Result<(), NoMemory>
    requires scene { N.job ≡ job.now }
    requires at_work { IsStateAtWork job.now post.now state.old n }
    requires plan { IsPlan job.now state.old.desk.store n planned.now }
    ensures kept { IsStateKept job.now state.old.desk.store.role post.now state.new }
    ensures ok { OnOk result
        (EmitsNext job.now n state.old (Some planned.now.envelope) state.new) }
    ensures err { OnErr result (state.new ≡ state.old) }
{
    // laws: of the script; equal keys are one key
    is_orderly(job);
    equal_values_are_one();
    let e = &planned.envelope;
    post_planned(rt, post, &mut state.passes, &mut state.spares, e)?;
    emit_planned(&mut state.desk, job, n, planned);
    Ok(())
}

/// Puts the envelope into its receiver's mailbox, unless it is lost.
fn post_planned<N: Scene, W: Wait>(
    rt: &W,
    post: &Post<N>,
    passes: &mut RolePasses,
    spares: &mut Spares,
    e: &Envelope,
) -> Result<(), NoMemory>
    requires passes { (sent : ℕ → List Envelope) × (taken : List Envelope) ×
        ArePasses post.now e.now.from sent taken passes.old }
    requires known { 0 < e.now.copies → e.now.to < length post.now }
    requires posted { 0 < e.now.copies → IsPosted N.job e.now.from e.now.to e.now }
    ensures ok { OnOk result ((sent : ℕ → List Envelope) (taken : List Envelope) →
        ArePasses post.now e.now.from sent taken passes.old →
        ArePasses post.now e.now.from (λ q. sent q ++ arriving q e.now) taken passes.new) }
    ensures err { OnErr result (passes.new ≡ passes.old) }
{
    if e.copies == 0 {
        return Ok(());
    }
    let parcel = spares.pack(e)?;
    post.put(rt, passes, parcel)
}
