ghost use Rattle.std.specs.Prelude.{◌≡◌, ◌≢◌, ◌+◌, [], ◌++◌, IfOk, IfErr, Ok, Err};
ghost use Rattle.std.specs.List.{flat_map};
ghost use Rattle.refutation_log.specs.declared.refutation.Kind.{Kind};
ghost use Rattle.refutation_log.specs.declared.refutation.Log.{Log};
ghost use Rattle.refutation_log.specs.Entries.{entries};
ghost use Rattle.refutation_log.specs.declared.refusal.LogRefusal.{LogRefusal};
ghost use Rattle.refutation_log.specs.LogText.{IsTextOf, header_line, entry_line};
ghost use Rattle.refutation_log.specs.NumberRange.{LogInRange};
ghost use Rattle.refutation_log.specs.Refusal.{IsRefusedLog, Answers};
ghost use Rattle.list_base.specs.Lines.{end_line};

use super::body::{BodyLine, body_line};
use super::header::header_of;
use super::refusal::LogRefusal;
use super::refutation::{Kind, Log, Version};
use list_base::Seq;
use std::alloc::Global;
use text_lines::split_once;

/// The kind and the log whose text this is. Memory counts as run out where more than 4,294,967,295
/// steps stand before a removal.
pub fn read_log(alloc: Global, text: &[u8]) -> Result<(Kind, Log), LogRefusal>
    ensures ok { IfOk result (λ read. IsTextOf text.now read.0 read.1) }
    ensures refused { IfErr result (IsRefusedLog text.now) }

    // What has a text is read, and each refusal is given where it is due.
    ensures reads { (kind : Kind) (log : Log) →
        IsTextOf text.now kind log → Answers result (Ok (kind, log)) }
    ensures refuses { (refusal : LogRefusal) → refusal ≢ LogRefusal.NoMemory →
        IsRefusedLog text.now refusal → Answers result (Err refusal) }
{
    log_of(alloc, text)
}

/// The kind and the log whose text this is, by the one way from the text to it.
fn log_of(alloc: Global, text: &[u8]) -> Result<(Kind, Log), LogRefusal>
    ensures ok { IfOk result (λ read. IsTextOf text.now read.0 read.1) }
    ensures refused { IfErr result (IsRefusedLog text.now) }
{
    let (line, rest) = split_once(text, b'\n');
    let Some(rest) = rest else {
        return Err(LogRefusal::Form { line: 1 });
    };
    let Some((version, kind)) = header_of(line) else {
        return Err(LogRefusal::Form { line: 1 });
    };
    let log = read_entries(alloc, version, rest)?;
    Ok((kind, log))
}

/// The log of a text of this version from its second line on, whatever the first line says that the
/// log is of.
pub fn read_entries(alloc: Global, version: Version, text: &[u8]) -> Result<Log, LogRefusal>
    ensures numbers { IfOk result LogInRange }
    ensures allowed { IfOk result (λ log. version ≡ Version.One → log.removals ≡ []) }
    ensures text { IfOk result
        (λ log. text.now ≡ flat_map entry_line (entries log) ++ end_line) }
    ensures refused { IfErr result
        (λ refusal. (kind : Kind) → IsRefusedLog (header_line version kind ++ text.now) refusal) }
{
    let mut log = Log::plain(alloc, Seq::new(alloc));
    let mut number = 2;
    let mut rest = text;
    loop {
        let (line, after) = split_once(rest, b'\n');
        let Some(after) = after else {
            return Err(LogRefusal::Form { line: number });
        };
        match body_line(alloc, version, line) {
            Ok(BodyLine::Entry(entry)) => log.push_entry(entry)?,
            Ok(BodyLine::End) if after.is_empty() => return Ok(log),
            Ok(BodyLine::End) => return Err(LogRefusal::Form { line: number + 1 }),
            Err(error) => return Err(error.at(number)),
        }
        number += 1;
        rest = after;
    }
}
