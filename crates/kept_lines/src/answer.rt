ghost use Rattle.std.specs.Prelude.{◌≡◌, [], IsErrOf, IsOk, OnErr, OnOk};
ghost use Rattle.std.specs.Io.KnownBytes.{Appends, Keeps};
ghost use Rattle.bspl_io.specs.Faults.{HasCounted};
ghost use Rattle.kept_lines.specs.Passage.{KeepsFirst};

use super::journal::Journal;
use bspl_io::{Sink, Trouble, WriteRefusal, write_all};

/// Why the replies to lines were not written whole.
#[derive(Clone, Copy, Debug, PartialEq, Eq)]
pub enum AnswerRefusal {
    /// Keeping failed, and was counted. No reply was written.
    JournalFault,
    /// Writing failed, and was counted. The lines are kept, and the replies may be cut short.
    WriteFault,
    /// Memory ran out: either of the journal, and nothing was kept or written, or of the sink, and
    /// the lines are kept, and the replies may be cut short.
    NoMemory,
}

impl From<Trouble> for AnswerRefusal {
    ghost use Rattle.std.specs.Prelude.{◌≡◌};
    ghost use Rattle.kept_lines.specs.Refusal.{refusal_of_journal};

    ghost from_gives = { λ trouble refusal. refusal ≡ refusal_of_journal trouble };

    fn from(trouble: Trouble) -> AnswerRefusal {
        match trouble {
            Trouble::Failed => AnswerRefusal::JournalFault,
            Trouble::NoMemory => AnswerRefusal::NoMemory,
        }
    }
}

impl From<WriteRefusal> for AnswerRefusal {
    ghost use Rattle.std.specs.Prelude.{◌≡◌};
    ghost use Rattle.kept_lines.specs.Refusal.{refusal_of_sink};

    ghost from_gives = { λ written refusal. refusal ≡ refusal_of_sink written };

    fn from(refusal: WriteRefusal) -> AnswerRefusal {
        match refusal {
            WriteRefusal::WriteFault => AnswerRefusal::WriteFault,
            WriteRefusal::NoMemory => AnswerRefusal::NoMemory,
        }
    }
}

/// Keeps the lines, if there are any, and then writes the replies.
pub fn keep_and_write<J: Journal, W: Sink>(
    journal: &mut J,
    output: &mut W,
    lines: &[u8],
    replies: &[u8],
) -> Result<(), AnswerRefusal>
    ensures order { KeepsFirst (record {
      kept = J.kept journal.old;
      kept_after = J.kept journal.new;
      contents = W.contents output.old;
      contents_after = W.contents output.new;
    }) lines.now replies.now result }
    ensures none { lines.now ≡ [] →
        (journal.new ≡ journal.old) × ¬ IsErrOf result AnswerRefusal.JournalFault }
    ensures keep_counted { IsErrOf result AnswerRefusal.JournalFault →
        HasCounted (J.faults journal.old) (J.faults journal.new) }
    ensures keep_still { ¬ IsErrOf result AnswerRefusal.JournalFault →
        J.faults journal.new ≡ J.faults journal.old }
    ensures write_counted { IsErrOf result AnswerRefusal.WriteFault →
        HasCounted (W.faults output.old) (W.faults output.new) }
    ensures write_still { ¬ IsErrOf result AnswerRefusal.WriteFault →
        W.faults output.new ≡ W.faults output.old }
{
    keep_some(journal, lines)?;
    write_all(output, replies)?;
    Ok(())
}

/// Keeps the lines. A journal is not called for none.
fn keep_some<J: Journal>(journal: &mut J, lines: &[u8]) -> Result<(), Trouble>
    ensures ok { OnOk result (Appends (J.kept journal.old) (J.kept journal.new) lines.now) }
    ensures err { OnErr result (Keeps (J.kept journal.old) (J.kept journal.new)) }
    ensures none { lines.now ≡ [] → (journal.new ≡ journal.old) × IsOk result }
    ensures counted { IsErrOf result Trouble.Failed →
        HasCounted (J.faults journal.old) (J.faults journal.new) }
    ensures still { ¬ IsErrOf result Trouble.Failed → J.faults journal.new ≡ J.faults journal.old }
{
    if lines.is_empty() {
        return Ok(());
    }
    journal.keep(lines)
}
