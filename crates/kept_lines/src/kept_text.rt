ghost use Rattle.std.specs.Prelude.{IfErr, IfOk};
ghost use Rattle.kept_lines.specs.Restored.{FailsToRestore, RestoresText};

use super::responder::Responder;
use list_base::{Bytes, NoMemory};
use std::alloc::Global;
use text_lines::split_once;

/// Why a text of kept lines could not be restored.
#[derive(Clone, Copy, Debug, PartialEq, Eq)]
pub enum RestoreRefusal {
    /// The line with this number, from 1, is none that is kept, or it lacks its LF.
    NotKept { line: u64 },
    /// Memory ran out.
    NoMemory,
}

impl From<NoMemory> for RestoreRefusal {
    ghost use Rattle.std.specs.Prelude.{◌≡◌};
    ghost use Rattle.kept_lines.specs.declared.kept_text.RestoreRefusal.TheVariants.{NoMemory};

    ghost from_gives = { λ _ refusal. refusal ≡ NoMemory };

    fn from(_error: NoMemory) -> RestoreRefusal {
        RestoreRefusal::NoMemory
    }
}

/// Answers each line of a text, in which each has to be one that is kept. The replies are dropped.
pub fn restore<A: Responder + Drop>(
    alloc: Global,
    responder: A,
    text: &[u8],
) -> Result<A, RestoreRefusal>
    ensures ok { IfOk result (RestoresText A.answers responder text.now) }
    ensures err { IfErr result (FailsToRestore A.answers responder text.now) }
{
    let mut current = responder;
    let mut rest = text;
    let mut count = 0u64;
    'lines: loop {
        if rest.is_empty() {
            return Ok(current);
        }
        let (body, more) = split_once(rest, b'\n');
        let Some(more) = more else {
            return Err(RestoreRefusal::NotKept { line: count + 1 });
        };
        let mut replies = Bytes::new(alloc);
        if !current.answer(alloc, body, &mut replies)? {
            return Err(RestoreRefusal::NotKept { line: count + 1 });
        }
        count += 1;
        rest = more;
    }
}
