ghost use Rattle.std.specs.Prelude.{◌≡◌, ◌++◌, IfOk};
ghost use Rattle.std.specs.Fmt.{decimal};
ghost use Rattle.log_checker.specs.declared.refusal.Reject.TheVariants as rejects;
ghost use Rattle.rejections.specs.FailureLine.{reject_line, reject_words};

use list_base::{Bytes, NoMemory};
use log_checker::Reject;
use std::alloc::Global;

/// The line that names the first failure of a log. Out of memory is none.
pub fn reject_line(alloc: Global, reject: Reject) -> Result<Bytes, NoMemory>
    ensures { IfOk result (λ text. text ≡ reject_line reject) }
{
    let mut text = reject_words(alloc, reject)?;
    text.push(b'\n')?;
    Ok(text)
}

/// The words that name the first failure of a log.
fn reject_words(alloc: Global, reject: Reject) -> Result<Bytes, NoMemory>
    ensures { IfOk result (λ text. text ≡ reject_words reject) }
{
    match reject {
        Reject::NoClause { step } => no_clause_words(alloc, step),
        Reject::NoPivot { step, link } => {
            two_numbers(alloc, b"rejected step ", step, b" link ", link)
        }
        Reject::NoDrop { after, item } => two_numbers(alloc, b"rejected drop ", after, b" ", item),
        Reject::NotEmpty => Bytes::from_slice(alloc, b"rejected not-empty"),
        Reject::NoMemory => Err(NoMemory),
    }
}

/// The words for a step that names no clause.
fn no_clause_words(alloc: Global, step: u32) -> Result<Bytes, NoMemory>
    ensures { IfOk result (λ text. text ≡ reject_words (rejects.NoClause step)) }
{
    let mut text = one_number(alloc, b"rejected step ", step)?;
    text.append(b" clause")?;
    Ok(text)
}

/// A word and a number, and once more.
fn two_numbers(
    alloc: Global,
    word: &[u8],
    number: u32,
    next_word: &[u8],
    next_number: u64,
) -> Result<Bytes, NoMemory>
    ensures { IfOk result (λ text.
        text ≡ word.now ++ decimal number ++ next_word.now ++ decimal next_number) }
{
    let mut text = one_number(alloc, word, number)?;
    text.append(next_word)?;
    text.append(next_number.to_string(alloc)?.as_bytes())?;
    Ok(text)
}

/// A word and a number.
fn one_number(alloc: Global, word: &[u8], number: u32) -> Result<Bytes, NoMemory>
    ensures { IfOk result (λ text. text ≡ word.now ++ decimal number) }
{
    let mut text = Bytes::from_slice(alloc, word)?;
    text.append(number.to_string(alloc)?.as_bytes())?;
    Ok(text)
}
