ghost use Rattle.std.specs.Prelude.{◌≡◌, ◌<◌, OnErr, OnOk};
ghost use Rattle.adapter.specs.Kept.{IsKept};
ghost use Rattle.adapter.specs.State.{IsStateKept};
ghost use Rattle.adapter.specs.StateSteps.{MovesIn};

use super::arrival::deliver;
use super::desk::Desk;
use super::role_state::RoleState;
use agent_scripts::{Job, Scene};
use list_base::NoMemory;
use reorder_net::Post;
use std::sync::Wait;

/// Moves envelopes from the role's mailbox into its inbox until the mailbox is found empty, or
/// 65,536 were moved. Room for an envelope is made before it is taken out. So no envelope is lost
/// when memory runs out, and those that were moved before stay in the inbox.
pub fn drain<N: Scene, W: Wait>(
    rt: &W,
    state: &mut RoleState,
    job: &Job,
    post: &Post<N>,
) -> Result<(), NoMemory>
    requires scene { N.job ≡ job.now }
    requires kept { IsStateKept job.now state.old.desk.store.role post.now state.old }
    ensures kept { IsStateKept job.now state.old.desk.store.role post.now state.new }
    ensures moved { MovesIn 65536 state.old state.new }
{
    for _i in 0..65536u32 {
        if !take_in(rt, state, job, post)? {
            return Ok(());
        }
    }
    Ok(())
}

/// Moves one envelope from the mailbox into the inbox. Answers whether there was one.
fn take_in<N: Scene, W: Wait>(
    rt: &W,
    state: &mut RoleState,
    job: &Job,
    post: &Post<N>,
) -> Result<bool, NoMemory>
    requires scene { N.job ≡ job.now }
    requires kept { IsStateKept job.now state.old.desk.store.role post.now state.old }
    ensures kept { IsStateKept job.now state.old.desk.store.role post.now state.new }
    ensures moved { MovesIn 1 state.old state.new }
    ensures err { OnErr result (state.new ≡ state.old) }
{
    make_room(&mut state.desk, job)?;
    let role = state.desk.store().role();
    let Some(parcel) = post.take(rt, &mut state.passes, role) else {
        return Ok(false);
    };
    deliver(&mut state.desk, job, *parcel.envelope()).unwrap();
    state.spares.keep(parcel);
    Ok(true)
}

/// Makes room for one envelope in the inbox.
fn make_room(desk: &mut Desk, job: &Job) -> Result<(), NoMemory>
    requires kept { IsKept job.now desk.old.store.role desk.old }
    ensures kept { IsKept job.now desk.old.store.role desk.new }
    ensures ok { OnOk result (0 < desk.new.inbox.spare) }
    ensures same { (desk.new.store ≡ desk.old.store)
        × (desk.new.inbox.envelopes ≡ desk.old.inbox.envelopes) }
    ensures err { OnErr result (desk.new ≡ desk.old) }
{
    desk.inbox.reserve(1)
}
