ghost use Rattle.std.specs.Prelude.{◌≡◌, ◌==◌, ◌||◌, ◌≤◌, length};
ghost use Rattle.std.specs.List.{filter};
ghost use Rattle.adapter.specs.Pending.{messages_of};
ghost use Rattle.restart_run.specs.Disks.{bytes_for};

use agent_scripts::Job;
use bspl_types::{Expanded, Message};

/// The bytes of a place for an entry: a gate and a body.
const PLACE: u64 = 562;

/// How many bytes the role's disk needs for each event that the role can have.
pub fn bytes_for(job: &Job, role: u32) -> u64
    ensures { result ≡ bytes_for job.now role }
{
    PLACE * (job.script().count() * count_messages(job.admitted().expanded(), role))
}

/// How many messages the role sends or receives.
fn count_messages(x: &Expanded, role: u32) -> u64
    ensures count { result ≡ length (messages_of x.now role) }
    ensures few { result ≤ 64 }
{
    count_own(x.messages.as_slice(), role) as u64
}

/// How many of the messages the role sends or receives.
fn count_own(messages: &[Message], role: u32) -> usize
    ensures { result ≡ length (filter (λ m. m.sender == role || m.receiver == role) messages.now) }
{
    messages
        .iter()
        .filter(|m| m.sender == role || m.receiver == role)
        .count()
}
