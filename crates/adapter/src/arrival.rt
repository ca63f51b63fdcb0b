ghost use Rattle.std.specs.Prelude.{◌≡◌, ◌<◌, IsOk, OnOk, OnErr};
ghost use Rattle.adapter.specs.Kept.{IsFor, IsKept};
ghost use Rattle.adapter.specs.Steps.{AcceptsEnvelope};

use super::desk::Desk;
use agent_scripts::Job;
use bspl_types::Envelope;
use list_base::NoMemory;

/// Puts the envelope into the desk's inbox, or drops it if it has no copies. An inbox with room
/// takes no memory.
pub fn deliver(desk: &mut Desk, job: &Job, e: Envelope) -> Result<(), NoMemory>
    requires kept { IsKept job.now desk.old.store.role desk.old }
    requires own { 0 < e.copies → IsFor job.now desk.old.store.role e }
    ensures kept { IsKept job.now desk.old.store.role desk.new }
    ensures ok { OnOk result (AcceptsEnvelope desk.old e desk.new) }
    ensures room { 0 < desk.old.inbox.spare → IsOk result }
    ensures err { OnErr result (desk.new ≡ desk.old) }
{
    desk.inbox.put(e)
}
