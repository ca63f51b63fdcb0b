//! How the roles' states come behind their locks.

ghost use Rattle.std.specs.Prelude.{◌≡◌, ◌+◌, ◌<◌, length, IfOk};
ghost use Rattle.adapter.specs.Laws.{IsNewState};
ghost use Rattle.world_run.specs.inner.Locks.{AreUnlocked, HasLock};

use super::role_lock::RoleLock;
use super::world::DeskList;
use adapter::{Desk, RoleState, new_states_are_kept};
use agent_scripts::{Job, Scene};
use list_base::{NoMemory, Seq};
use local_store::Store;
use reorder_net::{Inbox, Mail, PassList, RolePasses};
use std::alloc::Global;

/// Puts the last of the desks behind a lock, with its passes, if it is the desk of role `R`.
pub fn lock_last<N: Scene, M: Mail, const R: u32>(
    desks: &mut DeskList,
    passes: &mut PassList,
) -> Option<RoleLock<N, M, R>>
    requires { AreUnlocked N.job M.boxes (R + 1) desks.old passes.old }
    ensures lock { HasLock R (length N.job.protocol.roles) result }
    ensures left { AreUnlocked N.job M.boxes R desks.new passes.new }
{
    if desks.len() <= R as usize {
        return None;
    }
    let desk = desks.pop().unwrap();
    let own = passes.pop().unwrap();
    Some(locked_state(desk, own))
}

/// The new state of role `R` behind its lock.
fn locked_state<N: Scene, M: Mail, const R: u32>(
    desk: Desk,
    passes: RolePasses,
) -> RoleLock<N, M, R>
    requires { IsNewState N.job R M.boxes (record { desk = desk; passes = passes }) }
{
    // law: a new state is kept
    new_states_are_kept();
    RoleLock::of(RoleState::open(desk, passes))
}

/// A desk for each role, without keys, events and room for any.
pub fn empty_desks(alloc: Global, job: &Job) -> Result<DeskList, NoMemory>
    ensures { IfOk result (λ desks. length desks ≡ length job.now.protocol.roles) }
{
    let admitted = job.admitted();
    let roles = admitted.expanded().roles.len();
    let mut desks = Seq::new(alloc);
    for role in 0..roles {
        let store = Store::new(alloc, admitted, role as u32)?;
        desks.push(Desk::of(store, Inbox::new(alloc)))?;
    }
    Ok(desks)
}
