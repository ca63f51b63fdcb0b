ghost use Rattle.std.specs.Prelude.{◌+◌, ◌^◌, ◌<◌, ◌≤◌, [], length, IfOk, IfErr};
ghost use Rattle.std.specs.Option.{option_copied};
ghost use Rattle.dimacs.specs.Dimacs.{variable_limit};
ghost use Rattle.dimacs.specs.Verdict.{IsFormulaOf};
ghost use Rattle.dimacs.specs.inner.Reading.{AreRead, IsUnread, lines_in};
ghost use Rattle.dimacs.specs.Refusal.{IsUnreadable};

use super::clauses::Reading;
use super::header::start_of;
use super::refusal::Refusal;
use super::words::{take_words, uncommented};
use clause_core::Formula;
use refutation_log::LineError;
use std::alloc::Global;
use text_lines::split_once;

/// What was read of the lines after the header, and the number of the last line.
#[derive(Drop)]
struct Body {
    reading: Reading,
    line: u64,
}

/// The formula that the text is.
pub fn formula_of(alloc: Global, text: &[u8]) -> Result<Formula, Refusal>
    ensures ok { IfOk result (IsFormulaOf text.now) }
    ensures err { IfErr result (IsUnreadable text.now) }
{
    let start = start_of(text)?;
    let header = start.header;
    let Body { reading, line } = body_of(alloc, header.vars, start.rest, start.line)?;
    let Reading { clauses, pending } = reading;
    if !pending.is_empty() {
        return Err(Refusal::Line(line));
    }
    if clauses.len() as u64 != u64::from(header.clauses) {
        return Err(Refusal::Line(line));
    }
    match Formula::of(header.vars, clauses) {
        Some(formula) => Ok(formula),
        None => Err(Refusal::Line(line)),
    }
}

/// Reads the lines, the first of which has the number after `header_line`.
fn body_of(
    alloc: Global,
    vars: u32,
    lines: Option<&[u8]>,
    header_line: u64,
) -> Result<Body, Refusal>
    requires few { vars ≤ variable_limit }
    requires short { header_line + length (lines_in (option_copied lines)) < 2 ^ 64 }
    ensures ok { IfOk result (λ body. AreRead vars body.reading.clauses body.reading.pending.items
        (lines_in (option_copied lines.entry)) [] header_line body.line) }
    ensures err { IfErr result
        (IsUnread vars (lines_in (option_copied lines.entry)) header_line) }
{
    let mut reading = Reading::new(alloc);
    let mut line = header_line;
    let mut left = lines;
    while let Some(bytes) = left {
        line += 1;
        let (first, rest) = split_once(bytes, b'\n');
        match take_words(alloc, &mut reading, vars, uncommented(first)) {
            Ok(()) => left = rest,
            Err(LineError::NoMemory) => return Err(Refusal::NoMemory),
            Err(_) => return Err(Refusal::Line(line)),
        }
    }
    Ok(Body { reading, line })
}
