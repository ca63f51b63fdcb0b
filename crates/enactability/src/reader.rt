ghost use Rattle.std.specs.Prelude.{◌≢◌, ◌<◌, ℕ, length, IfErr, IfOk, Ok, Err};
ghost use Rattle.refutation_log.specs.declared.refusal.LogRefusal.{LogRefusal};
ghost use Rattle.refutation_log.specs.declared.refutation.Log.{Log};
ghost use Rattle.enactability.specs.DeadText.{IsDeadText};
ghost use Rattle.enactability.specs.Refusal.{GivesOrNoMemory, IsRefusedDead};

use super::laws::dead_texts_read_once;
use super::title::title_of;
use bspl_types::{Admitted, Expanded};
use refutation_log::{Log, LogRefusal, read_entries};
use run_text::names_are_fields;
use std::alloc::Global;
use text_lines::split_once;

/// The message and the log whose text this is. Memory counts as run out where more than
/// 4,294,967,295 steps stand before a removal.
pub fn read_dead(alloc: Global, a: &Admitted, text: &[u8]) -> Result<(u32, Log), LogRefusal>
    ensures ok { IfOk result (λ read. IsDeadText a.now text.now read.0 read.1) }
    ensures known { IfOk result (λ read. read.0 < length a.now.messages) }
    ensures refused { IfErr result (IsRefusedDead a.now text.now) }

    // What has a text is read, and each refusal is given where it is due.
    ensures reads { (m : ℕ) (log : Log) →
        IsDeadText a.now text.now m log → GivesOrNoMemory result (Ok (m, log)) }
    ensures refuses { (refusal : LogRefusal) → refusal ≢ LogRefusal.NoMemory →
        IsRefusedDead a.now text.now refusal → GivesOrNoMemory result (Err refusal) }
{
    // law: a text is that of one log on one message, or refused for one thing
    dead_texts_read_once();
    dead_of(alloc, a.expanded(), text)
}

/// The message and the log, by the one way from the text to them.
fn dead_of(alloc: Global, x: &Expanded, text: &[u8]) -> Result<(u32, Log), LogRefusal>
    ensures ok { IfOk result (λ read. IsDeadText x.now text.now read.0 read.1) }
    ensures refused { IfErr result (IsRefusedDead x.now text.now) }
{
    // law: the name of a message has no LF
    names_are_fields();
    let (line, rest) = split_once(text, b'\n');
    let Some(rest) = rest else {
        return Err(LogRefusal::Form { line: 1 });
    };
    let Some((version, message)) = title_of(x, line) else {
        return Err(LogRefusal::Form { line: 1 });
    };
    let log = read_entries(alloc, version, rest)?;
    Ok((message, log))
}
