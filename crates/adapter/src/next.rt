ghost use Rattle.std.specs.Prelude.{◌≡◌, ◌<◌, length, slice_get, Some, MatchOption, true, false};
ghost use Rattle.std.specs.List.{All};
ghost use Rattle.agent_scripts.specs.Statement.{IsSentBy};
ghost use Rattle.local_store.specs.State.{AreIndices, key_at};
ghost use Rattle.adapter.specs.Next.{CanEmitNext, IsAtWork, IsFirstToEmit, IsNext, IsPassedOver};
ghost use Rattle.adapter.specs.Rules.{key_of};

use super::desk::Desk;
use agent_scripts::{Job, Script, scripts_fit};
use local_store::Store;

/// The row of the workload number's key. Keys are held in the order of their numbers, unless others
/// were added before, so the row is looked for at the number.
pub(crate) fn row_of(desk: &Desk, job: &Job, n: u64) -> usize
    requires { IsAtWork job.now desk.now n }
    ensures { slice_get desk.now.store.keys result ≡ Some (key_of job.now n) }
{
    desk.store().row_near(&job.script().key(n), n as usize - 1)
}

/// The message that the role's agent emits next at the workload number, whose key has the row: the
/// first one of its order that is not declined, was never emitted under the key, and can be emitted.
pub(crate) fn next_at(desk: &Desk, job: &Job, row: usize, n: u64) -> Option<u32>
    requires at_work { IsAtWork job.now desk.now n }
    requires row { slice_get desk.now.store.keys row ≡ Some (key_of job.now n) }
    ensures { IsNext job.now desk.now.store n result }
{
    // law: an order has messages alone that its role sends
    scripts_fit();
    let script = job.script();
    let order = script.order(desk.store().role());
    first_to_emit(desk.store(), script, order.as_slice(), row, n)
}

/// The first message of the order that can be emitted next at the number, which is that of the
/// row's key.
fn first_to_emit(store: &Store, script: &Script, order: &[u32], row: usize, n: u64) -> Option<u32>
    requires sent { All (IsSentBy store.now.protocol store.now.role) order.now }
    requires held { row < length store.now.keys }
    ensures { MatchOption result
        (All (IsPassedOver script.now store.now n (key_at store.now row)) order.now)
        (IsFirstToEmit script.now store.now n (key_at store.now row) order.now) }
{
    for m in order {
        if can_emit_next(store, script, *m, row, n) {
            return Some(*m);
        }
    }
    None
}

/// Whether the message can be emitted next at the number, which is that of the row's key.
fn can_emit_next(store: &Store, script: &Script, message: u32, row: usize, n: u64) -> bool
    requires { AreIndices store.now row message }
    ensures next { result ≡ true →
        CanEmitNext script.now store.now n (key_at store.now row) message }
    ensures passed { result ≡ false →
        IsPassedOver script.now store.now n (key_at store.now row) message }
{
    if store.emitted_at(row, message) || !store.can_emit_at(row, message) {
        return false;
    }
    !script.declined(message, n)
}
