ghost use Rattle.std.specs.Prelude.{◌≡◌, ◌≢◌, ◌≤◌, ◌∷◌, [], All, MatchOption, OnOk, IfErr, Some};
ghost use Rattle.std.specs.Option.{option_copied};
ghost use Rattle.dimacs.specs.Dimacs.{line_words, parts_words, variable_limit, words_of};
ghost use Rattle.dimacs.specs.RefusedLine.{IsClauseWord};
ghost use Rattle.dimacs.specs.inner.Reading.{TakesWords, blank_parts, words_left};

use super::clauses::Reading;
use super::token::token_of;
use refutation_log::LineError;
use std::alloc::Global;

/// Whether the byte parts two words.
fn parts_words(byte: u8) -> bool
    ensures { result ≡ parts_words byte }
{
    matches!(byte, b' ' | b'\t' | b'\r')
}

/// The bytes before the first blank, and those after it if it is there.
fn cut_at_blank(bytes: &[u8]) -> (&[u8], Option<&[u8]>)
    ensures { blank_parts (Some bytes.now) ≡ result.0.now ∷ blank_parts (option_copied result.1) }
{
    for (index, byte) in bytes.iter().enumerate() {
        if parts_words(*byte) {
            return (&bytes[..index], Some(&bytes[index + 1..]));
        }
    }
    (bytes, None)
}

/// The first word of what is left of a line, and what is left after it.
pub fn next_word(fields: Option<&[u8]>) -> Option<(&[u8], Option<&[u8]>)>
    ensures { MatchOption result
        (words_left (option_copied fields.entry) ≡ [])
        (λ found. words_left (option_copied fields.entry)
        ≡ found.0.now ∷ words_left (option_copied found.1)) }
{
    let mut left = fields;
    while let Some(bytes) = left {
        let (word, rest) = cut_at_blank(bytes);
        if !word.is_empty() {
            return Some((word, rest));
        }
        left = rest;
    }
    None
}

/// The line, or none of it if it is a comment.
pub fn uncommented(line: &[u8]) -> &[u8]
    ensures { words_of result.now ≡ line_words line.now }
{
    match line {
        [b'c', ..] => &line[..0],
        _ => line,
    }
}

/// Takes the words of the line, unless one of them is no token.
pub fn take_words(
    alloc: Global,
    reading: &mut Reading,
    vars: u32,
    line: &[u8],
) -> Result<(), LineError>
    requires { vars ≤ variable_limit }
    ensures ok { OnOk result (TakesWords vars reading.old.clauses reading.old.pending.items
        (words_of line.now) reading.new.clauses reading.new.pending.items) }
    ensures err { IfErr result (λ error. error ≢ LineError.NoMemory →
        ¬ All (IsClauseWord vars) (words_of line.now)) }
{
    let mut left = Some(line);
    while let Some((word, rest)) = next_word(left) {
        reading.take(alloc, token_of(word, vars)?)?;
        left = rest;
    }
    Ok(())
}
