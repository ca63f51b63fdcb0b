ghost use Rattle.std.specs.Prelude.{◌≡◌, ◌≢◌, ◌⊎◌, IfErr, IfOk, Ok, Err};
ghost use Rattle.refutation_log.specs.declared.refusal.LogRefusal.{LogRefusal};
ghost use Rattle.refutation_log.specs.declared.refutation.Log.{Log};
ghost use Rattle.question_answer.specs.QuestionLog.{IsRefusedRest, IsRestOfLog};

use super::laws::rests_read_once;
use refutation_log::{Log, LogRefusal, Version, read_entries};
use std::alloc::Global;

/// The log of a text of this version, from what follows its first line. Memory counts as run out
/// where more than 4,294,967,295 steps stand before a removal.
pub fn read_titled_log(alloc: Global, version: Version, rest: &[u8]) -> Result<Log, LogRefusal>
    ensures ok { IfOk result (IsRestOfLog version rest.now) }
    ensures refused { IfErr result (IsRefusedRest version rest.now) }

    // What is that of a log is read, and each refusal is given where it is due.
    ensures reads { (log : Log) → IsRestOfLog version rest.now log →
        (result ≡ Ok log) ⊎ (result ≡ Err LogRefusal.NoMemory) }
    ensures refuses { (refusal : LogRefusal) → refusal ≢ LogRefusal.NoMemory →
        IsRefusedRest version rest.now refusal →
        (result ≡ Err refusal) ⊎ (result ≡ Err LogRefusal.NoMemory) }
{
    // law: it is that of one log, or refused for one thing
    rests_read_once();
    read_entries(alloc, version, rest)
}
