ghost use Rattle.std.specs.Prelude.{◌≡◌, ◌≢◌, ◌+◌, ◌∷◌, ℕ, List, length, IfOk, IfErr, MatchOption};
ghost use Rattle.std.specs.Option.{option_copied};
ghost use Rattle.dimacs.specs.Dimacs.{HasHeader, IsHeader, text_lines, words_of};
ghost use Rattle.dimacs.specs.inner.Reading.{HasNoHeader, header_form, lines_in, words_left};

use super::count::count_of;
use super::refusal::Refusal;
use super::words::{next_word, uncommented};
use text_lines::split_once;

/// The most variables that a formula has.
const VARIABLE_LIMIT: u32 = 16_777_215;

/// The most clauses that a formula has.
const CLAUSE_LIMIT: u32 = 2_147_483_647;

/// How many variables and clauses a text says it has.
#[derive(Clone, Copy, Debug)]
pub struct Header {
    pub vars: u32,
    pub clauses: u32,
}

/// A header, the number of its line from 1, and the lines after it.
#[derive(Clone, Copy)]
pub struct Start<'a> {
    pub header: Header,
    pub line: u64,
    pub rest: Option<&'a [u8]>,
}

/// The first line with words, if it is a header. Else the number of that line, or of the last line
/// if no line has words.
pub fn start_of(text: &[u8]) -> Result<Start<'_>, Refusal>
    ensures ok { IfOk result (λ start. HasHeader (text_lines text.now)
        start.header.vars start.header.clauses (lines_in (option_copied start.rest))) }
    ensures counted { IfOk result (λ start.
        start.line + length (lines_in (option_copied start.rest)) ≡ length (text_lines text.now)) }
    ensures err { IfErr result (HasNoHeader (text_lines text.now)) }
{
    let mut line = 0u64;
    let mut left = Some(text);
    while let Some(lines) = left {
        line += 1;
        let (first, rest) = split_once(lines, b'\n');
        let kept = uncommented(first);
        if next_word(Some(kept)).is_some() {
            return match header_of(kept) {
                Some(header) => Ok(Start { header, line, rest }),
                None => Err(Refusal::Line(line)),
            };
        }
        left = rest;
    }
    Err(Refusal::Line(line))
}

/// The header that a line is.
fn header_of(line: &[u8]) -> Option<Header>
    ensures { MatchOption result
        ((vars clauses : ℕ) → ¬ IsHeader (words_of line.now) vars clauses)
        (λ header. IsHeader (words_of line.now) header.vars header.clauses) }
{
    let (vars, clauses) = counts_in(line)?;
    let vars = count_of(vars, VARIABLE_LIMIT)?;
    let clauses = count_of(clauses, CLAUSE_LIMIT)?;
    Some(Header { vars, clauses })
}

/// The two words after `p cnf`, if these are the words of the line.
fn counts_in(line: &[u8]) -> Option<(&[u8], &[u8])>
    ensures { MatchOption result
        ((vars clauses : List ℕ) → words_of line.now ≢ header_form vars clauses)
        (λ found. words_of line.now ≡ header_form found.0.now found.1.now) }
{
    let rest = word_after(Some(line), b"p")?;
    let rest = word_after(rest, b"cnf")?;
    let (vars, rest) = next_word(rest)?;
    let (clauses, rest) = next_word(rest)?;
    if next_word(rest).is_none() {
        Some((vars, clauses))
    } else {
        None
    }
}

/// What is left after the first word, if that is the wanted one.
fn word_after<'a>(fields: Option<&'a [u8]>, wanted: &[u8]) -> Option<Option<&'a [u8]>>
    ensures { MatchOption result
        ((words : List (List ℕ)) → words_left (option_copied fields.entry) ≢ wanted.now ∷ words)
        (λ rest. words_left (option_copied fields.entry)
        ≡ wanted.now ∷ words_left (option_copied rest)) }
{
    let (word, rest) = next_word(fields)?;
    if word == wanted { Some(rest) } else { None }
}
