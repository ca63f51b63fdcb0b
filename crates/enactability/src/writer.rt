ghost use Rattle.std.specs.Prelude.{◌≡◌, ◌<◌, length, IfOk};
ghost use Rattle.refutation_log.specs.LogText.{LogInRange};
ghost use Rattle.enactability.specs.DeadText.{dead_text};

use super::title::dead_front;
use bspl_types::Admitted;
use list_base::{Bytes, NoMemory};
use refutation_log::{Log, push_entries};
use std::alloc::Global;

/// The text of the log on the message, of which `read_dead` gives both again. Its version is 1
/// exactly if the log removes nothing.
pub fn write_dead(alloc: Global, a: &Admitted, message: u32, log: &Log) -> Result<Bytes, NoMemory>
    requires known { message < length a.now.messages }
    requires numbers { LogInRange log.now }
    ensures { IfOk result (λ text. text ≡ dead_text a.now message log.now) }
{
    let mut text = Bytes::from_slice(alloc, dead_front(log.version()))?;
    text.append(a.expanded().message_at(message).name.as_slice())?;
    text.push(b'\n')?;
    push_entries(&mut text, log)?;
    Ok(text)
}
